// The row that is printed for a line: what the line means, with its canonical line, or why it means nothing.
ghost use Rattle.std.specs.Prelude.{◌≡◌, true, length, Some};
ghost use Rattle.line.specs.Lines.{meant};
ghost use Rattle.line.specs.Meanings.{message_of};
ghost use Rattle.writer.specs.Canonical.{formed};
ghost use Rattle.inspect.specs.Rows.{side_by, kind_of, row_of_read, row_for};
ghost use Rattle.inspect.specs.Meanings.{side_said, kind_said, row_said};
ghost use Rattle.inspect.specs.Shown.{fault_text};

use line::{Fault, Message, Side, read};
use std::fmt;
use std::str::from_utf8;
use writer::rewrite;

// What a message is by its side and mark.
#[derive(Clone, Copy, Drop)]
pub(crate) enum Kind {
    Command,
    Answer,
    Event,
    Notice,
}

#[derive(Drop)]
pub(crate) enum Row<'a> {
    // the first byte says neither command nor answer
    Unknown,
    Fault(Fault),
    // the canonical line would be too long
    Unsendable,
    // the kind of the message and its canonical line
    Meant(Kind, &'a [u8]),
}

impl fmt::Display for Kind {
    fn fmt<W: fmt::Write>(&self, f: &mut fmt::Formatter<W>) -> fmt::Result {
        match self {
            Kind::Command => f.write_str("COMMAND"),
            Kind::Answer => f.write_str("ANSWER"),
            Kind::Event => f.write_str("EVENT"),
            Kind::Notice => f.write_str("NOTICE"),
        }
    }
}

// A fault by its number, its place and the layer that turned the line away; every fault of a line has a place and a layer.
#[derive(Clone, Copy)]
struct Turned(Fault);

impl fmt::Display for Turned {
    ghost output = { λ turned. Some (fault_text turned.0) };

    fn fmt<W: fmt::Write>(&self, f: &mut fmt::Formatter<W>) -> fmt::Result {
        let number = self.0.number();
        let place = self.0.place().unwrap_or(0);
        match self.0.layer() {
            Some(layer) => write!(f, "FAULT {number} {place} {layer}"),
            None => write!(f, "FAULT {number} {place} "),
        }
    }
}

impl<'a> fmt::Display for Row<'a> {
    fn fmt<W: fmt::Write>(&self, f: &mut fmt::Formatter<W>) -> fmt::Result {
        match self {
            Row::Unknown => f.write_str("?"),
            Row::Fault(fault) => {
                let turned = Turned(*fault);
                write!(f, "{turned}")
            }
            Row::Unsendable => f.write_str("UNSENDABLE"),
            Row::Meant(kind, line) => {
                // as one text, and not `Text`, which shows byte by byte: a canonical line has bytes from 32 to 126 alone
                let text = from_utf8(line).map_err(|_| fmt::Error)?;
                write!(f, "{kind} {text}")
            }
        }
    }
}

// Whose line follows the first byte.
fn side_by(first: u8) -> Option<Side>
    ensures { side_said result ≡ side_by first }
{
    match first {
        b'>' => Some(Side::Command),
        b'<' => Some(Side::Answer),
        _ => None,
    }
}

fn kind_of(message: &Message<'_>) -> Kind
    ensures { kind_said result ≡ kind_of (message_of message.now) }
{
    match (message.side(), message.mark()) {
        (Side::Command, _) => Kind::Command,
        (Side::Answer, '!') => Kind::Event,
        (Side::Answer, '?') => Kind::Notice,
        (Side::Answer, _) => Kind::Answer,
    }
}

// The row for a message: its canonical line is written to the front of `buffer`.
fn message_row<'a>(message: &Message<'_>, buffer: &'a mut [u8]) -> Row<'a>
    requires { (formed (message_of message.now) ≡ true) × (length buffer.old ≡ 1024) }
    ensures { row_said result ≡ row_of_read (meant (message_of message.now)) }
{
    match rewrite(message, buffer) {
        Ok(len) => Row::Meant(kind_of(message), &buffer[0..len]),
        Err(_) => Row::Unsendable,
    }
}

// The row for a line, given without its end; `buffer` is where its canonical line may be written.
pub(crate) fn row_of<'a>(line: &[u8], buffer: &'a mut [u8]) -> Row<'a>
    requires { length buffer.old ≡ 1024 }
    ensures { row_said result ≡ row_for line.now }
{
    let [first, rest @ ..] = line else {
        return Row::Unknown;
    };
    let Some(side) = side_by(*first) else {
        return Row::Unknown;
    };
    match read(side, rest) {
        Ok(message) => message_row(&message, buffer),
        Err(fault) => Row::Fault(fault),
    }
}
