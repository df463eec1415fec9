// How a line begins: its address and its mark, each ended by a slash.
ghost use Rattle.std.specs.Prelude.{◌≡◌, ◌+◌, ◌^◌, ◌<◌, length, IfOk};
ghost use Rattle.line.specs.Meanings.{side_of, placed, message_of};
ghost use Rattle.writer.specs.Canonical.{address_text};
ghost use Rattle.writer.specs.Writing.{refusal, mark_fault, first_fault, first_given, Heads, line_head};

use line::{Address, Fault, Message, Side, is_first_field, is_mark};

// The slash behind the address, the mark, and the slash behind it.
const MARK_LEN: usize = 3;

#[derive(Clone, Copy)]
pub(crate) struct Head<'a> {
    // whose line it is: no byte of the head says so, but the first field is judged by it
    pub(crate) side: Side,
    pub(crate) address: Address<'a>,
    pub(crate) mark: u8,
}

fn address_len(address: Address<'_>) -> usize
    ensures text { result ≡ length (address_text (placed address.entry)) }
    ensures small { result < 2 ^ 63 + 3 }
{
    match address.zone {
        Some(_) => address.device.len() + 3,
        None => address.device.len(),
    }
}

impl<'a> Head<'a> {
    // The head of a line; or why no line has that mark, with the place where it would stand.
    pub(crate) fn new(side: Side, address: Address<'a>, mark: char) -> Result<Head<'a>, Fault>
        ensures answer { refusal result ≡ mark_fault (side_of side) (placed address.entry) mark }
        ensures made { IfOk result (λ h. Heads h (side_of side) (placed address.entry) mark) }
    {
        if !is_mark(side, mark) {
            return Err(Fault::BadMark(address_len(address) + 1));
        }
        let mark = mark as u8; // a digit, `!` or `?`, so nothing is lost
        Ok(Head {
            side,
            address,
            mark,
        })
    }

    // The head of a message's line.
    pub(crate) fn of(message: &Message<'a>) -> Result<Head<'a>, Fault>
        ensures answer { refusal result ≡ mark_fault (message_of message.now).side (message_of message.now).address (message_of message.now).mark }
        ensures made { IfOk result (λ h. Heads h (message_of message.now).side (message_of message.now).address (message_of message.now).mark) }
    {
        Head::new(message.side(), message.address(), message.mark())
    }

    // Whether that first field has its form; if it has not, the place where it would stand, right behind the head.
    // A call of its own, since the mark is judged before a first field is looked for: that goes through a message's body.
    pub(crate) fn takes(&self, first: Option<&[u8]>) -> Result<(), Fault>
        ensures { refusal result ≡ first_fault (placed self.now.address) (first_given (side_of self.now.side) first.entry) }
    {
        let side = self.side; // so that the closure holds a side alone
        if !first.is_some_and(|first| is_first_field(side, first)) {
            return Err(Fault::FirstField(self.len()));
        }
        Ok(())
    }

    pub(crate) fn len(&self) -> usize
        ensures text { result ≡ length (line_head self.now) }
        ensures small { result < 2 ^ 63 + 6 }
    {
        address_len(self.address) + MARK_LEN
    }
}
