// The mark of a line: the one character that says which command it belongs to.
ghost use Rattle.std.specs.Prelude.{◌≡◌};
ghost use Rattle.line.specs.Forms.{is_mark, mark_of};
ghost use Rattle.line.specs.Meanings.{side_of};

use crate::message::Side;

// Whether the character is a mark: a digit, and in an answer also `!` (an event) or `?` (an unknown number).
pub fn is_mark(side: Side, mark: char) -> bool
    ensures { result ≡ is_mark (side_of side) mark }
{
    matches!((side, mark), (_, '0'..='9') | (Side::Answer, '!' | '?'))
}

// The mark that a line's mark part is, if it is one.
pub(crate) fn mark_in(side: Side, part: &[u8]) -> Option<char>
    ensures { result ≡ mark_of (side_of side) part.now }
{
    let [b] = part else {
        return None;
    };
    Some(char::from(*b)).filter(|mark| is_mark(side, *mark))
}
