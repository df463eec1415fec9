// The address of a command, kept while an answer to it may come.
ghost use Rattle.std.specs.Prelude.{◌≡◌};
ghost use Rattle.line.specs.Meanings.{placed};
ghost use Rattle.numbers.specs.Ours.{same_address};
ghost use Rattle.numbers.specs.Addresses.{device_of, address_of};

use line::Address;
use std::array::TryFromSliceError;

// A device by two digits, or by # and twelve digits of base sixteen, as its bytes stand in the line.
#[derive(Clone, Copy)]
pub enum Device {
    Number([u8; 2]),
    Serial([u8; 13]),
}

#[derive(Clone, Copy)]
pub struct CommandAddress {
    pub device: Device,
    pub zone: Option<u8>,
}

impl Device {
    pub fn as_bytes(&self) -> &[u8]
        ensures { result.now ≡ device_of self.now }
    {
        match self {
            Device::Number(digits) => digits,
            Device::Serial(text) => text,
        }
    }
}

// A device that has as many bytes as a command's has.
impl TryFrom<&[u8]> for Device {
    ghost use Rattle.std.specs.Prelude.{◌≡◌};
    ghost use Rattle.std.specs.Option.{option_map};
    ghost use Rattle.std.specs.Result.{result_ok};
    ghost use Rattle.numbers.specs.Addresses.{device_of, keepable_device};

    type Error = TryFromSliceError;

    ghost try_from_gives = { λ bytes r. option_map device_of (result_ok r) ≡ keepable_device bytes.now };

    fn try_from(bytes: &[u8]) -> Result<Device, TryFromSliceError> {
        match bytes {
            [a, b] => Ok(Device::Number([*a, *b])),
            _ => Ok(Device::Serial(bytes.try_into()?)),
        }
    }
}

impl TryFrom<Address<'_>> for CommandAddress {
    ghost use Rattle.std.specs.Prelude.{◌≡◌};
    ghost use Rattle.std.specs.Option.{option_map};
    ghost use Rattle.std.specs.Result.{result_ok};
    ghost use Rattle.line.specs.Meanings.{placed};
    ghost use Rattle.numbers.specs.Addresses.{address_of, keepable};

    type Error = TryFromSliceError;

    ghost try_from_gives = { λ address r. option_map address_of (result_ok r) ≡ keepable (placed address) };

    fn try_from(address: Address<'_>) -> Result<CommandAddress, TryFromSliceError> {
        Ok(CommandAddress {
            device: address.device.try_into()?,
            zone: address.zone,
        })
    }
}

impl CommandAddress {
    // Whether an answer has this address: the one place where addresses are compared.
    pub fn is_that_of(&self, answer: &Address<'_>) -> bool
        ensures { result ≡ same_address (placed answer.now) (address_of self.now) }
    {
        answer.device == self.device.as_bytes() && answer.zone == self.zone
    }
}
