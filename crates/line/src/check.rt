// The check of a line: two digits, the sum of the bytes before it modulo 100.
ghost use Rattle.std.specs.Prelude.{◌≡◌};
ghost use Rattle.line.specs.Forms.{digit_pair, two_digits, check_of};
ghost use Rattle.line.specs.Reads.{Checks};

use crate::fault::Fault;

// Two digits, by their value.
pub(crate) fn pair_value(a: u8, b: u8) -> Option<u8>
    ensures { result ≡ digit_pair a b }
{
    match (a, b) {
        (b'0'..=b'9', b'0'..=b'9') => Some((a - b'0') * 10 + (b - b'0')),
        _ => None,
    }
}

// Two digits and nothing else, by their value.
pub(crate) fn digits_value(s: &[u8]) -> Option<u8>
    ensures { result ≡ two_digits s.now }
{
    match s {
        [a, b] => pair_value(*a, *b),
        _ => None,
    }
}

// The sum of the bytes modulo 100.
pub fn check_sum(bytes: &[u8]) -> u8
    ensures { result ≡ check_of bytes.now }
{
    let mut sum: u32 = 0;
    for b in bytes {
        sum = (sum + u32::from(*b)) % 100;
    }
    sum as u8 // below 100, so nothing is lost
}

// The value of the check, where there is one; `summed` are the bytes that it sums, and it stands behind them.
pub(crate) fn checked(summed: &[u8], check: Option<&[u8]>) -> Result<Option<u8>, Fault>
    ensures { Checks summed.now check.entry result }
{
    let Some(digits) = check else {
        return Ok(None);
    };
    let said = digits_value(digits).ok_or(Fault::CheckForm(summed.len()))?;
    if said != check_sum(summed) {
        return Err(Fault::CheckSum(summed.len()));
    }
    Ok(Some(said))
}
