// How a byte is spelled: its length, and the escape that has its number.
ghost use Rattle.std.specs.Prelude.{◌≡◌, length};
ghost use Rattle.escape.specs.Spelling.{in_digits, spelled};

use numeral::digits;

// A backslash, `d`, and the byte's number in three digits.
#[tactic(auto, using(crate::proofs::Digits::in_three))]
pub(crate) fn numbered(b: u8) -> [u8; 5]
    ensures { result ≡ in_digits b }
{
    let [hundreds, tens, ones] = digits::<3>(u32::from(b));
    [b'\\', b'd', hundreds, tens, ones]
}

pub(crate) fn spelled_len(b: u8) -> usize
    ensures { result ≡ length (spelled b) }
{
    match b {
        b':' | b'/' | b'\\' | b'\n' | b'\r' | b'\t' => 2,
        b' '..=b'~' => 1,
        _ => 5,
    }
}
