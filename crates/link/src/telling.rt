// What a line is to the link, and what it makes of the number that it has for a mark.
ghost use Rattle.std.specs.Prelude.{◌≡◌, true};
ghost use Rattle.std.specs.Option.{option_copied};
ghost use Rattle.line.specs.Forms.{answer, is_mark};
ghost use Rattle.line.specs.Lines.{meant};
ghost use Rattle.line.specs.Meanings.{message_of, read_of};
ghost use Rattle.reader.specs.Cutting.{Part, whole};
ghost use Rattle.life.specs.Link.{Told};
ghost use Rattle.numbers.specs.Ours.{as_answer, ours};
ghost use Rattle.numbers.specs.Slots.{kind_of as matched_kind};
ghost use Rattle.numbers.specs.Ten.{slots_of};
ghost use Rattle.link.specs.Meanings.{kind_of as told_kind, messages_of, message_at};
ghost use Rattle.link.specs.Steps.{digit_number, without_number, line_read, ToldAs};

use crate::pumped::Kind;
use line::{Fault, Message, Side, read};
use numbers::{Match, Numbers};

// What comes from a player is read as an answer.
fn read_answer(line: &[u8]) -> Result<Message<'_>, Fault>
    ensures { read_of result ≡ as_answer line.now }
{
    read(Side::Answer, line)
}

// A digit's number fits a byte, so the cast loses nothing.
fn number_in(mark: char) -> Option<u8>
    ensures { result ≡ digit_number mark }
{
    match mark {
        '0'..='9' => Some(mark as u8 - b'0'),
        _ => None,
    }
}

// The kind of a line whose mark is no digit.
fn kind_without_number(mark: char) -> Kind
    ensures { told_kind result ≡ without_number mark }
{
    match mark {
        '!' => Kind::Event,
        _ => Kind::Notice,
    }
}

// The kind of a line with the number, by what it is to the command that has the number. Kind repeats the six cases of Match, flat and
// with their numbers, so that a caller finds in one `match` all that a line may be.
fn kind_with_number(number: u8, matched: Match) -> Kind
    ensures { told_kind result ≡ matched_kind number matched }
{
    match matched {
        Match::Stray => Kind::Stray,
        Match::Misplaced => Kind::Misplaced,
        Match::More => Kind::More(number),
        Match::Last => Kind::Last(number),
        Match::Late => Kind::Late(number),
        Match::LateLast => Kind::LateLast(number),
    }
}

// Tells the message, and lets its number stand as it does after it.
fn tell(message: &Message<'_>, numbers: &mut Numbers) -> Kind
    requires { is_mark answer (message_of message.now).mark ≡ true }
    ensures told { Told ours (slots_of numbers.old) (slots_of numbers.new) (meant (message_of message.now)) (told_kind result) }
    ensures recent { numbers.new.recent ≡ numbers.old.recent }
{
    let mark = message.mark();
    let Some(number) = number_in(mark) else {
        return kind_without_number(mark);
    };
    kind_with_number(number, numbers.told(number, message))
}

// Reads a whole line; there is none if more of it came than is held.
fn read_line(line: Option<&[u8]>) -> Result<Message<'_>, Fault>
    ensures { read_of result ≡ line_read (option_copied line.entry) }
{
    read_answer(line.ok_or(Fault::TooLong)?)
}

// Tells such a line.
pub fn kind_of(line: Option<&[u8]>, numbers: &mut Numbers) -> Kind
    ensures told { (p : Part) → whole p ≡ option_copied line.entry → ToldAs p (slots_of numbers.old) (slots_of numbers.new) result }
    ensures recent { numbers.new.recent ≡ numbers.old.recent }
{
    match read_line(line) {
        Ok(message) => tell(&message, numbers),
        Err(fault) => Kind::Fault(fault),
    }
}

// The message of the line of `length` bytes at the front of the buffer, which it borrows. Pump cannot answer with it:
// a result that borrows from a buffer that was lent to be written keeps its owner from knowing what the buffer holds.
pub fn message(buffer: &[u8], length: usize) -> Option<Message<'_>>
    ensures { messages_of result ≡ message_at buffer.now length }
{
    read_answer(buffer.get(..length)?).ok()
}
