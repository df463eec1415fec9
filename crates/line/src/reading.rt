// Reading a line, fault by fault in the order of their numbers.
ghost use Rattle.std.specs.Prelude.{◌≡◌, ◌+◌, ◌≤◌, length, not, position};
ghost use Rattle.line.specs.Forms.{visible};
ghost use Rattle.line.specs.Lines.{parts_read, reading};
ghost use Rattle.line.specs.Meanings.{side_of, placed, message_of, read_of, check_said};
ghost use Rattle.line.specs.Reads.{said, if_command};
ghost use Rattle.line.specs.Cuts.{Cut, Fits, parts_meant, KeepsCheck, KeepsStated};

use crate::address::address_in;
use crate::body::{first_field, is_first_field};
use crate::check::checked;
use crate::fault::Fault;
use crate::mark::mark_in;
use crate::message::{Address, Message, Side};
use escape::{broken_at, cut};

// The most bytes that a line may have before its end.
pub const LINE_MAX: usize = 1024;

// The parts of a line, and the bytes up to and with the third slash, which the check sums.
#[derive(Clone, Copy)]
struct Parts<'a> {
    address: &'a [u8],
    mark: &'a [u8],
    body: &'a [u8],
    check: Option<&'a [u8]>,
    summed: &'a [u8],
}

fn is_visible(b: u8) -> bool
    ensures { result ≡ visible b }
{
    matches!(b, 32..=126)
}

// Where the first byte stands that may not stand in a line.
fn invisible_at(line: &[u8]) -> Option<usize>
    ensures { result ≡ position (λ b. not (visible b)) line.now }
{
    line.iter().position(|b| !is_visible(*b))
}

// Cuts a line at its slashes outside escapes.
fn parts_of(side: Side, line: &[u8]) -> Option<Parts<'_>>
    ensures { Cut (side_of side) line.now result }
{
    let (address, rest) = cut(line, b'/')?;
    let (mark, rest) = cut(rest, b'/')?;
    let Some((body, check)) = cut(rest, b'/') else {
        return match side {
            Side::Command => Some(Parts {
                address,
                mark,
                body: rest,
                check: None,
                summed: line,
            }),
            // an answer has a check
            Side::Answer => None,
        };
    };
    // no fourth slash stands outside an escape
    cut(check, b'/').is_none().then_some(Parts {
        address,
        mark,
        body,
        check: Some(check),
        summed: &line[..line.len() - check.len()],
    })
}

// The message of a line that has its form, from its parts.
fn message<'a>(
    side: Side,
    address: Address<'a>,
    mark: char,
    body: &'a [u8],
    check: Option<u8>,
) -> Message<'a>
    ensures meaning { message_of result ≡ said (side_of side) (placed address.entry) mark body.now }
    ensures check { check_said result ≡ if_command (side_of side) check }
{
    match (side, mark) {
        (Side::Command, _) => Message::Command {
            address,
            mark,
            body,
            check,
        },
        (Side::Answer, '!') => Message::Event { address, body },
        (Side::Answer, _) => Message::Answer {
            address,
            mark,
            body,
        },
    }
}

// Tries each part for its form, in the order of the faults.
fn judge<'a>(side: Side, parts: Parts<'a>) -> Result<Message<'a>, Fault>
    requires { Fits (parts_meant parts) parts.summed.now }
    ensures read { read_of result ≡ parts_read (side_of side) (parts_meant parts.entry) parts.entry.summed.now }
    ensures check { KeepsCheck (side_of side) (parts_meant parts.entry) result }
{
    let address = address_in(side, parts.address).ok_or(Fault::BadAddress)?;
    let mark_at = parts.address.len() + 1;
    let mark = mark_in(side, parts.mark).ok_or(Fault::BadMark(mark_at))?;
    let check = checked(parts.summed, parts.check)?;
    let body_at = mark_at + parts.mark.len() + 1;
    let first = first_field(parts.body).ok_or(Fault::BodyEnd(body_at))?;
    if !is_first_field(side, first) {
        return Err(Fault::FirstField(body_at));
    }
    Ok(message(side, address, mark, parts.body, check))
}

// Reads a line, given without its end.
pub fn read(side: Side, line: &[u8]) -> Result<Message<'_>, Fault>
    ensures read { read_of result ≡ reading (side_of side) line.now }
    ensures check { KeepsStated (side_of side) line.now result }
{
    if line.len() > LINE_MAX {
        return Err(Fault::TooLong);
    }
    // a place that is found is the fault itself, where `?` would go on with it
    if let Some(place) = invisible_at(line) {
        return Err(Fault::Invisible(place));
    }
    if let Some(place) = broken_at(line) {
        return Err(Fault::BadEscape(place));
    }
    let parts = parts_of(side, line).ok_or(Fault::Slashes(line.len()))?;
    judge(side, parts)
}
