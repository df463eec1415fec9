// Numbers as fields spell them, with the escapes of a field resolved first.
ghost use Rattle.std.specs.Prelude.{◌≡◌, ◌^◌, ◌≤◌, length};
ghost use Rattle.std.specs.Option.{option_copied};
ghost use Rattle.escape.specs.Tokens.{digit, resolved};
ghost use Rattle.numeral.specs.Numbers.{spelled_on, numeral, short_numeral, counted, if_fits, Below};

use escape::resolve;

// The most digits that a number has.
const DIGITS_MAX: usize = 5;

fn is_digit(b: u8) -> bool
    ensures { result ≡ digit b }
{
    b.is_ascii_digit()
}

// The number that digits spell.
fn value_of(digits: &[u8]) -> Option<u32>
    requires { length digits.now ≤ 5 }
    ensures value { result ≡ spelled_on 0 digits.now }
    ensures small { Below (10 ^ length digits.now) result }
{
    let mut n: u32 = 0;
    for d in digits {
        if !is_digit(*d) {
            return None;
        }
        n = n * 10 + u32::from(*d - b'0');
    }
    Some(n)
}

// The number that exactly so many digits spell.
fn number(digits: &[u8], width: usize) -> Option<u32>
    requires { length digits.now ≤ 5 }
    ensures value { result ≡ numeral width digits.now }
    ensures small { Below (10 ^ width) result }
{
    if digits.len() != width {
        return None;
    }
    value_of(digits)
}

// The number that 1 to 5 digits spell, if it is no larger than a count may be: 65,535.
fn count(digits: &[u8]) -> Option<u16>
    ensures { result ≡ counted digits.now }
{
    if digits.is_empty() || digits.len() > DIGITS_MAX {
        return None;
    }
    u16::try_from(value_of(digits)?).ok()
}

// The field with its escapes resolved, at the front of the buffer, if it has room.
fn resolved_in<'b>(field: &[u8], buffer: &'b mut [u8]) -> Option<&'b [u8]>
    ensures { option_copied result ≡ if_fits (resolved field.now) (length buffer.old) }
{
    let len = resolve(field, buffer)?;
    Some(&buffer[..len])
}

// The number that a field of exactly so many digits means; none of more than five.
#[tactic(auto, using(crate::proofs::Numerals::short_fits, crate::proofs::Numerals::short_none))]
pub fn field_number(field: &[u8], width: usize) -> Option<u32>
    ensures value { result ≡ short_numeral width (resolved field.now) }
    ensures small { Below (10 ^ width) result }
{
    let mut buffer = [0; DIGITS_MAX];
    number(resolved_in(field, &mut buffer)?, width)
}

// The count that a field means.
pub fn field_count(field: &[u8]) -> Option<u16>
    ensures { result ≡ counted (resolved field.now) }
{
    let mut buffer = [0; DIGITS_MAX];
    count(resolved_in(field, &mut buffer)?)
}
