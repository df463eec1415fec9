// The fields of a message that tells a record. They are counted from 1: its name is at 0, behind the status.
ghost use Rattle.std.specs.Prelude.{◌≡◌, ◌^◌, ◌≤◌, length, ◌==◌};
ghost use Rattle.escape.specs.Tokens.{resolved};
ghost use Rattle.line.specs.Meanings.{message_of};
ghost use Rattle.record.specs.Records.{is_kind, if_kind, field_of, number_in, count_in};
ghost use Rattle.record.specs.Reads.{ReadBelow};

use line::{Fault, Message, Side};
use numeral::{field_count, field_number};

// The message whose fields are asked for by their places.
#[derive(Clone, Copy)]
pub(crate) struct Fields<'a> {
    pub(crate) message: Message<'a>,
}

impl<'a> Fields<'a> {
    // A field as it stands in the line; an empty one where there is none.
    pub(crate) fn raw(&self, place: usize) -> &'a [u8]
        requires { place ≤ 8 }
        ensures { resolved result.now ≡ field_of (message_of self.now.message) place }
    {
        self.message.raw_field(place + 1).unwrap_or(b"")
    }

    // Whether the message has just so many fields, with its status and name.
    fn has_just(&self, count: usize) -> bool
        requires { (1 ≤ count) × (count ≤ 10) }
        ensures { result ≡ (length (message_of self.now.message).fields == count) }
    {
        self.message.raw_field(count - 1).is_some() && self.message.raw_field(count).is_none()
    }

    // Whether the message is an answer of that name with so many fields behind it.
    #[tactic(auto, using(crate::proofs::Places::kind_by_field))]
    fn is_kind(&self, name: &[u8], count: usize) -> bool
        requires { count ≤ 8 }
        ensures { result ≡ is_kind name.now count (message_of self.now.message) }
    {
        self.message.side() == Side::Answer
            && self.message.field_is(1, name)
            && self.has_just(count + 2)
    }

    // Refuses a message of another kind.
    pub(crate) fn expect_kind(&self, name: &[u8], count: usize) -> Result<(), Fault>
        requires { count ≤ 8 }
        ensures { result ≡ if_kind name.now count (message_of self.now.message) (Ok tt) }
    {
        if self.is_kind(name, count) {
            Ok(())
        } else {
            Err(Fault::RecordForm(0))
        }
    }

    // The number that a field of so many digits means.
    #[tactic(auto, using(numeral::proofs::Numerals::short_is), unfolding(crate::specs::Records::number_in))]
    pub(crate) fn number(&self, place: usize, width: usize) -> Result<u32, Fault>
        requires { (place ≤ 8) × (width ≤ 5) }
        ensures value { result ≡ number_in (message_of self.now.message) place width }
        ensures small { ReadBelow (10 ^ width) result }
    {
        field_number(self.raw(place), width).ok_or(Fault::RecordForm(place))
    }

    // The count that a field means.
    #[tactic(auto, unfolding(crate::specs::Records::count_in))]
    pub(crate) fn count(&self, place: usize) -> Result<u16, Fault>
        requires { place ≤ 8 }
        ensures { result ≡ count_in (message_of self.now.message) place }
    {
        field_count(self.raw(place)).ok_or(Fault::RecordForm(place))
    }
}
