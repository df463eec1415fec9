// Words and numbers of a line.
ghost use Rattle.std.specs.Prelude.{◌≡◌, ◌≤◌, Some, IfSome};
ghost use Rattle.std.specs.List.{position};
ghost use Rattle.script.specs.Script.{is_space, cut_word, number_to, one_digit_more};
ghost use Rattle.script.specs.Meanings.{split};

// Where the first space stands.
fn space_in(line: &[u8]) -> Option<usize>
    ensures { result ≡ position is_space line.now }
{
    line.iter().position(|b| *b == b' ')
}

// What stands before the first space, and what stands behind it.
pub(crate) fn split_word(line: &[u8]) -> (&[u8], Option<&[u8]>)
    ensures { split result ≡ cut_word line.now }
{
    match space_in(line) {
        Some(i) => (&line[..i], Some(&line[i + 1..])),
        None => (line, None),
    }
}

// The most that a size in a script may be.
pub(crate) const SIZE_MAX: usize = 4096;

// One digit behind those of the value so far.
fn with_digit(value: usize, d: u8) -> Option<usize>
    requires { value ≤ 4096 }
    ensures value { result ≡ one_digit_more 4096 d (Some value) }
    ensures bound { IfSome result (λ n. n ≤ 4096) }
{
    match d {
        b'0'..=b'9' => {
            let more = value * 10 + usize::from(d - b'0');
            (more <= SIZE_MAX).then_some(more)
        }
        _ => None,
    }
}

// A size in digits.
pub(crate) fn size(digits: &[u8]) -> Option<usize>
    ensures { result ≡ number_to 4096 digits.now }
{
    if digits.is_empty() {
        return None;
    }
    let mut value = 0;
    for d in digits {
        value = with_digit(value, *d)?;
    }
    Some(value)
}
