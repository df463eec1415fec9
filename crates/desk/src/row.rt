// Rows: what is told of each call.
ghost use Rattle.std.specs.Prelude.{◌≡◌, take, Some};
ghost use Rattle.desk.specs.Shown.{refusal_text, departed_text, clear_text, row_text};

use console::Spelled;
use line::Fault;
use link::{Outcome, Pumped};
use std::fmt;

#[derive(Clone, Copy)]
pub enum Row {
    // a submit that was accepted, with the number that it got
    Ticket(u8),
    Refused(Fault),
    Pumped(Pumped),
    Settled(Outcome),
    // no ticket is held for that number
    NoTicket,
    // how many commands were lost
    Reset(usize),
    Arrived(usize),
    // how many bytes stand at the buffer's front
    Departed(usize),
    Clear(bool),
    // a line that asks for nothing known
    Unknown,
}

// A row, with the buffer that its call was given.
#[derive(Clone, Copy)]
pub struct Told<'a> {
    pub row: Row,
    pub buffer: &'a [u8],
}

// The number of a fault, with its place and layer where it has them.
#[derive(Clone, Copy)]
struct Refusal(Fault);

impl fmt::Display for Refusal {
    ghost output = { λ refusal. Some (refusal_text refusal.0) };

    fn fmt<W: fmt::Write>(&self, f: &mut fmt::Formatter<W>) -> fmt::Result {
        let number = self.0.number();
        match (self.0.place(), self.0.layer()) {
            (Some(place), Some(layer)) => write!(f, "REFUSED {number} {place} {layer}"),
            _ => write!(f, "REFUSED {number}"),
        }
    }
}

// Bytes that departed, behind a space if there are any.
#[derive(Clone, Copy)]
struct Gone<'a>(&'a [u8]);

impl<'a> fmt::Display for Gone<'a> {
    ghost output = { λ gone. Some (departed_text gone.0.now) };

    fn fmt<W: fmt::Write>(&self, f: &mut fmt::Formatter<W>) -> fmt::Result {
        if self.0.is_empty() {
            return f.write_str("DEPARTED");
        }
        let bytes = Spelled(self.0);
        write!(f, "DEPARTED {bytes}")
    }
}

#[derive(Clone, Copy)]
struct Cleared(bool);

impl fmt::Display for Cleared {
    ghost output = { λ cleared. Some (clear_text cleared.0) };

    fn fmt<W: fmt::Write>(&self, f: &mut fmt::Formatter<W>) -> fmt::Result {
        if self.0 {
            f.write_str("CLEAR yes")
        } else {
            f.write_str("CLEAR no")
        }
    }
}

// The first bytes, or all if there are fewer.
fn front(buffer: &[u8], count: usize) -> &[u8]
    ensures { result.now ≡ take count buffer.now }
{
    buffer.get(..count).unwrap_or(buffer)
}

impl<'a> fmt::Display for Told<'a> {
    ghost output = { λ told. Some (row_text told.row told.buffer.now) };

    fn fmt<W: fmt::Write>(&self, f: &mut fmt::Formatter<W>) -> fmt::Result {
        match self.row {
            Row::Ticket(n) => write!(f, "TICKET {n}"),
            Row::Refused(fault) => {
                let refusal = Refusal(fault);
                write!(f, "{refusal}")
            }
            Row::Pumped(pumped) => write!(f, "{pumped}"),
            Row::Settled(outcome) => write!(f, "{outcome}"),
            Row::NoTicket => f.write_str("NO TICKET"),
            Row::Reset(count) => write!(f, "RESET {count}"),
            Row::Arrived(count) => write!(f, "ARRIVED {count}"),
            Row::Departed(count) => {
                let gone = Gone(front(self.buffer, count));
                write!(f, "{gone}")
            }
            Row::Clear(value) => {
                let cleared = Cleared(value);
                write!(f, "{cleared}")
            }
            Row::Unknown => f.write_str("?"),
        }
    }
}
