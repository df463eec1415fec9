// The escapes of a line: which bytes stand inside one, and what they mean.
#![tactic(auto)]

ghost use Rattle.std.specs.Prelude.{◌≡◌};
ghost use Rattle.escape.specs.Tokens.{short, numbered, tokens, parts, first_broken};
ghost use Rattle.escape.specs.Fronts.{opened, halved, Joins};

mod resolving;

pub use resolving::{means, resolve, resolved_len};

// What stands at the front of some bytes, and the bytes after it: two kinds of end and two kinds of byte, more than an
// `Option` or a `Result` can say.
#[derive(Clone, Copy)]
pub enum Front<'a> {
    // nothing is left
    Over,
    // a backslash that begins no escape
    Broken,
    // a byte outside an escape
    Plain(u8, &'a [u8]),
    // an escape, by the byte that it stands for
    Escape(u8, &'a [u8]),
}

// The byte that a backslash and one character stand for.
fn by_letter(x: u8) -> Option<u8>
    ensures { result ≡ short x }
{
    match x {
        b':' => Some(b':'),
        b'/' => Some(b'/'),
        b'\\' => Some(b'\\'),
        b'n' => Some(10),
        b'r' => Some(13),
        b't' => Some(9),
        _ => None,
    }
}

// The byte that a backslash, `d` and three digits from 000 to 255 stand for.
fn by_number(x: u8, y: u8, z: u8) -> Option<u8>
    ensures { result ≡ numbered x y z }
{
    match (x, y, z) {
        (b'0'..=b'9', b'0'..=b'9', b'0'..=b'9') => {
            let n = u16::from(x - b'0') * 100 + u16::from(y - b'0') * 10 + u16::from(z - b'0');
            u8::try_from(n).ok()
        }
        _ => None,
    }
}

// Takes the first byte or escape off the front of `s`.
pub fn first_of(s: &[u8]) -> Front<'_>
    ensures { opened s.now result ≡ tokens s.now }
{
    match s {
        [] => Front::Over,
        [b'\\', b'd', x, y, z, rest @ ..] => match by_number(*x, *y, *z) {
            Some(b) => Front::Escape(b, rest),
            None => Front::Broken,
        },
        [b'\\', x, rest @ ..] => match by_letter(*x) {
            Some(b) => Front::Escape(b, rest),
            None => Front::Broken,
        },
        [b'\\', ..] => Front::Broken,
        [b, rest @ ..] => Front::Plain(*b, rest),
    }
}

// Where the first backslash stands that begins no escape.
pub fn broken_at(s: &[u8]) -> Option<usize>
    ensures { result ≡ first_broken (tokens s.now) }
{
    let mut rest = s;
    // a loop: tokens have one to five bytes, and an iterator over them would hide where each begins
    loop {
        match first_of(rest) {
            Front::Over => return None, // every backslash began an escape
            Front::Broken => return Some(s.len() - rest.len()),
            Front::Plain(_, more) => rest = more,
            Front::Escape(_, more) => rest = more,
        }
    }
}

// What stands before and after the first byte `at` outside an escape.
pub fn cut(s: &[u8], at: u8) -> Option<(&[u8], &[u8])>
    ensures parts { halved at s.now result ≡ parts at s.now }
    ensures joins { Joins at s.now result }
{
    let mut rest = s;
    // a loop of its own, as above: it stops at a byte, and needs what stands before and after it
    loop {
        match first_of(rest) {
            Front::Over => return None,
            Front::Broken => return None, // what follows counts as one part
            Front::Plain(b, more) => {
                if b == at {
                    return Some((&s[..s.len() - rest.len()], more));
                }
                rest = more;
            }
            Front::Escape(_, more) => rest = more, // no place to cut
        }
    }
}
