// What pump answers.
ghost use Rattle.std.specs.Prelude.{Some};
ghost use Rattle.link.specs.Shown.{pumped_text};

use line::Fault;
use std::fmt;

// What a line is to the link. The last four have the number of the command that the line answers.
#[derive(Clone, Copy, PartialEq, Eq, Debug)]
pub enum Kind {
    // it cannot be read
    Fault(Fault),
    // the player tells something unasked
    Event,
    // an answer to no number that the player knew
    Notice,
    // an answer with a number that no command waits for, or with another address than its command
    Stray,
    // not the line that comes next in the answer
    Misplaced,
    // a line of the answer to an open number, and its final line
    More(u8),
    Last(u8),
    // the same for a number given up
    Late(u8),
    LateLast(u8),
}

// No Option, since it is shown: Display cannot be given to an Option here, and the row DRY stands beside those of the kinds.
#[derive(Clone, Copy, PartialEq, Eq, Debug)]
pub enum Pumped {
    // no line has ended
    Dry,
    // the line, without its end, stands at the buffer's front
    Line { kind: Kind, length: usize },
}

// The kind in capitals and the length; a fault has its number and place before the length, and a line of an answer its number behind it.
impl fmt::Display for Pumped {
    ghost output = { λ pumped. Some (pumped_text pumped) };

    fn fmt<W: fmt::Write>(&self, f: &mut fmt::Formatter<W>) -> fmt::Result {
        let Pumped::Line { kind, length } = self else {
            return f.write_str("DRY");
        };
        match kind {
            Kind::Fault(fault) => {
                let number = fault.number();
                let place = fault.place().unwrap_or(0);
                write!(f, "FAULT {number} {place} {length}")
            }
            Kind::Event => write!(f, "EVENT {length}"),
            Kind::Notice => write!(f, "NOTICE {length}"),
            Kind::Stray => write!(f, "STRAY {length}"),
            Kind::Misplaced => write!(f, "MISPLACED {length}"),
            Kind::More(n) => write!(f, "MORE {length} {n}"),
            Kind::Last(n) => write!(f, "LAST {length} {n}"),
            Kind::Late(n) => write!(f, "LATE {length} {n}"),
            Kind::LateLast(n) => write!(f, "LATE LAST {length} {n}"),
        }
    }
}
