// Why something is turned away: each reason has a number, and mostly a place and a layer.
ghost use Rattle.std.specs.Prelude.{◌≡◌, Some};
ghost use Rattle.line.specs.Meanings.{number_of, place_of, layer_of};
ghost use Rattle.line.specs.Shown.{layer_name};

use std::fmt;

// The part of the reader that turned a line away.
#[derive(Clone, Copy, PartialEq, Eq, Debug)]
pub enum Layer {
    Line,
    Parts,
    Body,
    // the fields of a message
    Record,
}

impl fmt::Display for Layer {
    ghost output = { λ layer. Some (layer_name layer) };

    fn fmt<W: fmt::Write>(&self, f: &mut fmt::Formatter<W>) -> fmt::Result {
        match self {
            Layer::Line => f.write_str("line"),
            Layer::Parts => f.write_str("parts"),
            Layer::Body => f.write_str("body"),
            Layer::Record => f.write_str("record"),
        }
    }
}

// The places are in the line, from 0.
#[derive(Clone, Copy, PartialEq, Eq, Debug)]
pub enum Fault {
    // 1: more than 1,024 bytes before the end
    TooLong,
    // 2: a byte outside 32 to 126
    Invisible(usize),
    // 3: a backslash that begins no escape
    BadEscape(usize),
    // 4: not three slashes outside escapes, or in a command neither two nor three
    Slashes(usize),
    // 5: the address has another form
    BadAddress,
    // 6: the mark has another form
    BadMark(usize),
    // 7: the check is not two digits
    CheckForm(usize),
    // 8: the check is not the sum modulo 100
    CheckSum(usize),
    // 9: the body does not end with a colon outside an escape
    BodyEnd(usize),
    // 10: the status or name has another form
    FirstField(usize),
    // 11: the buffer given to pump has fewer than 1,024 bytes
    PumpBuffer,
    // 12: at submit none of the ten numbers is free
    NoNumber,
    // 13: at submit the port has no room for the line and its end
    NoRoom,
    // 14: the buffer is too short, or nothing was begun
    ShortBuffer,
    // 15: the message has no field of that index
    NoField(usize),
    // 16: the fields do not fit the kind of record; the first wrong one, from 1, or 0 for a wrong name or count
    RecordForm(usize),
}

impl Fault {
    // The number by which the fault is told outside the code: in rows, and in what is promised.
    pub fn number(&self) -> u8
        ensures { result ≡ number_of self.now }
    {
        match self {
            Fault::TooLong => 1,
            Fault::Invisible(_) => 2,
            Fault::BadEscape(_) => 3,
            Fault::Slashes(_) => 4,
            Fault::BadAddress => 5,
            Fault::BadMark(_) => 6,
            Fault::CheckForm(_) => 7,
            Fault::CheckSum(_) => 8,
            Fault::BodyEnd(_) => 9,
            Fault::FirstField(_) => 10,
            Fault::PumpBuffer => 11,
            Fault::NoNumber => 12,
            Fault::NoRoom => 13,
            Fault::ShortBuffer => 14,
            Fault::NoField(_) => 15,
            Fault::RecordForm(_) => 16,
        }
    }

    // Where in the line, or which field, if the reason has a place.
    pub fn place(&self) -> Option<usize>
        ensures { result ≡ place_of self.now }
    {
        match self {
            Fault::TooLong => Some(1024),
            Fault::BadAddress => Some(0),
            Fault::Invisible(place)
            | Fault::BadEscape(place)
            | Fault::Slashes(place)
            | Fault::BadMark(place)
            | Fault::CheckForm(place)
            | Fault::CheckSum(place)
            | Fault::BodyEnd(place)
            | Fault::FirstField(place)
            | Fault::NoField(place)
            | Fault::RecordForm(place) => Some(*place),
            Fault::PumpBuffer | Fault::NoNumber | Fault::NoRoom | Fault::ShortBuffer => None,
        }
    }

    pub fn layer(&self) -> Option<Layer>
        ensures { result ≡ layer_of (number_of self.now) }
    {
        match self {
            Fault::TooLong | Fault::Invisible(_) | Fault::BadEscape(_) => Some(Layer::Line),
            Fault::Slashes(_)
            | Fault::BadAddress
            | Fault::BadMark(_)
            | Fault::CheckForm(_)
            | Fault::CheckSum(_) => Some(Layer::Parts),
            Fault::BodyEnd(_) | Fault::FirstField(_) => Some(Layer::Body),
            Fault::NoField(_) | Fault::RecordForm(_) => Some(Layer::Record),
            Fault::PumpBuffer | Fault::NoNumber | Fault::NoRoom | Fault::ShortBuffer => None,
        }
    }
}
