// The address of a line: a device, and a music zone if one is named.
ghost use Rattle.std.specs.Prelude.{◌≡◌};
ghost use Rattle.std.specs.List.{list_all};
ghost use Rattle.std.specs.Option.{option_map};
ghost use Rattle.line.specs.Forms.{hex_digit, digit_pair, unless_zero, serial_length, device_length, zone_of, split_device, address_of};
ghost use Rattle.line.specs.Meanings.{side_of, placed};

use crate::check::pair_value;
use crate::message::{Address, Side};

fn is_hex(b: u8) -> bool
    ensures { result ≡ hex_digit b }
{
    matches!(b, b'0'..=b'9' | b'A'..=b'F')
}

fn all_hex(s: &[u8]) -> bool
    ensures { result ≡ list_all hex_digit s.now }
{
    s.iter().all(|b| is_hex(*b))
}

// Two digits from 01 to 99, by their value.
fn from_one(a: u8, b: u8) -> Option<u8>
    ensures { result ≡ unless_zero (digit_pair a b) }
{
    pair_value(a, b).filter(|n| *n > 0)
}

// How many bytes name a device by its serial number, of which `digits` follow the `#`.
fn serial_len(digits: &[u8]) -> Option<usize>
    ensures { result ≡ serial_length digits.now }
{
    if digits.len() < 12 {
        return None;
    }
    all_hex(&digits[..12]).then_some(13)
}

// How many bytes at the front name a device.
fn device_len(s: &[u8]) -> Option<usize>
    ensures { result ≡ device_length s.now }
{
    match s {
        [b'#', digits @ ..] => serial_len(digits),
        [a, b, ..] => from_one(*a, *b).map(|_| 2),
        _ => None,
    }
}

// What follows a device: no zone, or a point and one.
fn zone_in(s: &[u8]) -> Option<Option<u8>>
    ensures { result ≡ zone_of s.now }
{
    match s {
        [] => Some(None),
        [b'.', a, b] => from_one(*a, *b).map(Some),
        _ => None,
    }
}

fn device_and_zone(s: &[u8]) -> Option<Address<'_>>
    ensures { option_map placed result ≡ split_device s.now (device_length s.now) }
{
    let n = device_len(s)?;
    let (device, after) = s.split_at(n);
    let zone = zone_in(after)?;
    Some(Address { device, zone })
}

// The address that a line's address part is, if it is one.
pub fn address_in(side: Side, part: &[u8]) -> Option<Address<'_>>
    ensures { option_map placed result ≡ address_of (side_of side) part.now }
{
    match (side, part) {
        (Side::Answer, [b'?', b'?']) => Some(Address {
            device: part,
            zone: None,
        }),
        _ => device_and_zone(part),
    }
}
