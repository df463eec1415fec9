// What a line of a script asks for.
ghost use Rattle.std.specs.Prelude.{◌≡◌};
ghost use Rattle.script.specs.Script.{asks, submit_of, cut_word, pump_of, one_digit, settle_of, clear_of, unbroken, or_unknown, number_to, as_depart, call_with, call_alone};
ghost use Rattle.script.specs.Meanings.{asked, behind};
ghost use Rattle.escape.specs.Tokens.{tokens, first_broken};

use crate::words::{size, split_word};
use escape::broken_at;

#[derive(Clone, Copy)]
pub enum Call<'a> {
    // an address, and a body with its escapes
    Submit { address: &'a [u8], body: &'a [u8] },
    // the size of the buffer
    Pump(usize),
    // the ticket of that number
    Settle(u8),
    // a ticket of another link
    SettleOther,
    Reset,
    // bytes with their escapes, each of which is whole
    Arrive(&'a [u8]),
    // the size of the buffer
    Depart(usize),
    Clear(bool),
}

fn submit<'a>(rest: &'a [u8]) -> Option<Call<'a>>
    ensures { or_unknown result asked ≡ submit_of (cut_word rest.now) }
{
    let (address, body) = split_word(rest);
    body.map(|body| Call::Submit { address, body })
}

// The buffer has 1,024 bytes if no size is given.
fn pump<'a>(rest: Option<&'a [u8]>) -> Option<Call<'a>>
    ensures { or_unknown result asked ≡ pump_of (behind rest.entry) }
{
    let Some(digits) = rest else {
        return Some(Call::Pump(1024));
    };
    size(digits).map(|n| Call::Pump(n))
}

fn one_digit(word: &[u8]) -> Option<u8>
    ensures { result ≡ one_digit word.now }
{
    match word {
        [d @ b'0'..=b'9'] => Some(*d - b'0'),
        _ => None,
    }
}

fn settle<'a>(word: &'a [u8]) -> Option<Call<'a>>
    ensures { or_unknown result asked ≡ settle_of word.now }
{
    match word {
        b"other" => Some(Call::SettleOther),
        _ => one_digit(word).map(|n| Call::Settle(n)),
    }
}

fn arrive<'a>(text: &'a [u8]) -> Option<Call<'a>>
    ensures { or_unknown result asked ≡ unbroken (first_broken (tokens text.now)) text.now }
{
    broken_at(text).is_none().then_some(Call::Arrive(text))
}

fn clear<'a>(word: &'a [u8]) -> Option<Call<'a>>
    ensures { or_unknown result asked ≡ clear_of word.now }
{
    match word {
        b"yes" => Some(Call::Clear(true)),
        b"no" => Some(Call::Clear(false)),
        _ => None,
    }
}

fn depart<'a>(digits: &'a [u8]) -> Option<Call<'a>>
    ensures { or_unknown result asked ≡ or_unknown (number_to 4096 digits.now) as_depart }
{
    size(digits).map(|n| Call::Depart(n))
}

// The calls that take something behind their word.
fn with_rest<'a>(word: &[u8], rest: &'a [u8]) -> Option<Call<'a>>
    ensures { or_unknown result asked ≡ call_with word.now rest.now }
{
    // tried: one match over the six words; the proof of its arms did not close
    if word == b"submit".as_slice() {
        submit(rest)
    } else if word == b"pump".as_slice() {
        pump(Some(rest))
    } else if word == b"settle".as_slice() {
        settle(rest)
    } else if word == b"arrive".as_slice() {
        arrive(rest)
    } else if word == b"depart".as_slice() {
        depart(rest)
    } else if word == b"clear".as_slice() {
        clear(rest)
    } else {
        None
    }
}

// The calls of one word.
fn alone<'a>(word: &'a [u8]) -> Option<Call<'a>>
    ensures { or_unknown result asked ≡ call_alone word.now }
{
    match word {
        b"pump" => pump(None),
        b"reset" => Some(Call::Reset),
        _ => None,
    }
}

// What the line asks for, if that is known.
pub fn asked_by(line: &[u8]) -> Option<Call<'_>>
    ensures { or_unknown result asked ≡ asks line.now }
{
    match split_word(line) {
        (word, Some(rest)) => with_rest(word, rest),
        (word, None) => alone(word),
    }
}
