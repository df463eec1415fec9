// One of the ten numbers: how it stands, and what each call makes of it.
ghost use Rattle.std.specs.Prelude.{◌≡◌, ℕ, Some};
ghost use Rattle.std.specs.Option.{option_map};
ghost use Rattle.line.specs.Meanings.{message_of};
ghost use Rattle.life.specs.Link.{advanced, after_reset, one_if_open};
ghost use Rattle.numbers.specs.Slots.{begins, slot_of, pending_of, outcome_of, outcome_name, IfForeign, kind_of, settles, tells, tells_pending, further, stepped, is_free_slot};
ghost use Rattle.numbers.specs.Meanings.{place_of};

use crate::address::CommandAddress;
use crate::listing::{Listing, Step, is_browse, next_step};
use line::Message;
use std::fmt;

// A command whose answer is not finished.
#[derive(Clone, Copy)]
pub struct Pending {
    pub address: CommandAddress,
    // Which rules hold for its answer. One enum of this and the listing would be a narrower type: a step is told for every pair.
    pub browse: bool,
    // none before an overview
    pub listing: Option<Listing>,
}

#[derive(Clone, Copy)]
pub enum Slot {
    Free,
    Open(Pending),
    Answered,
    Lost,
    GivenUp(Pending),
}

// What settle answers.
#[derive(Clone, Copy, PartialEq, Eq, Debug)]
pub enum Outcome {
    Answered,
    GivenUp,
    Lost,
    Foreign,
}

impl fmt::Display for Outcome {
    ghost output = { λ outcome. Some (outcome_name outcome) };

    fn fmt<W: fmt::Write>(&self, f: &mut fmt::Formatter<W>) -> fmt::Result {
        match self {
            Outcome::Answered => f.write_str("ANSWERED"),
            Outcome::GivenUp => f.write_str("GIVEN UP"),
            Outcome::Lost => f.write_str("LOST"),
            Outcome::Foreign => f.write_str("FOREIGN"),
        }
    }
}

// What is told of an answer line with a number.
#[derive(Clone, Copy, PartialEq, Eq, Debug)]
pub enum Match {
    Stray,
    Misplaced,
    More,
    Last,
    Late,
    LateLast,
}

impl Pending {
    // The command just sent; none if its device has not as many bytes as a command's has.
    pub fn begun(message: &Message<'_>) -> Option<Pending>
        ensures { option_map pending_of result ≡ begins (message_of message.now) }
    {
        let address = message.address().try_into().ok()?;
        Some(Pending {
            address,
            browse: is_browse(message),
            listing: None,
        })
    }

    // What a line is in the answer to the command; none if the line has another address.
    fn step(&self, message: &Message<'_>) -> Option<Step>
        ensures { stepped result ≡ tells_pending (pending_of self.now) (message_of message.now) }
    {
        // tried: `then`; the proof did not close, since nothing is learnt of what its closure returns
        if self.address.is_that_of(&message.address()) {
            Some(next_step(self.listing, self.browse, message))
        } else {
            None
        }
    }

    fn at(self, listing: Listing) -> Pending
        ensures { pending_of result ≡ advanced (pending_of self) (place_of (Some listing)) }
    {
        Pending {
            listing: Some(listing),
            ..self
        }
    }
}

impl Slot {
    pub fn is_free(&self) -> bool
        ensures { result ≡ is_free_slot (slot_of self.now) }
    {
        matches!(self, Slot::Free)
    }

    // How many open numbers this is: 1 or 0.
    pub fn opens(&self) -> u8
        ensures { result ≡ one_if_open (slot_of self.now) }
    {
        u8::from(matches!(self, Slot::Open(_)))
    }

    // After a reset.
    pub fn reset(self) -> Slot
        ensures { slot_of result ≡ after_reset (slot_of self) }
    {
        match self {
            Slot::Free | Slot::GivenUp(_) => Slot::Free,
            Slot::Open(_) | Slot::Lost => Slot::Lost,
            Slot::Answered => Slot::Answered,
        }
    }

    // After its ticket is settled, and what settle answers.
    pub fn settled(self) -> (Outcome, Slot)
        ensures stands { (outcome_of result.0, slot_of result.1) ≡ settles (slot_of self) }
        ensures foreign { IfForeign result.0 (result.1 ≡ self) }
    {
        match self {
            Slot::Free => (Outcome::Foreign, Slot::Free),
            Slot::Open(pending) => (Outcome::GivenUp, Slot::GivenUp(pending)),
            Slot::Answered => (Outcome::Answered, Slot::Free),
            Slot::Lost => (Outcome::Lost, Slot::Free),
            Slot::GivenUp(pending) => (Outcome::Foreign, Slot::GivenUp(pending)),
        }
    }

    // The same further on in the answer, if one may come.
    fn at(self, listing: Listing) -> Slot
        ensures { slot_of result ≡ further (place_of (Some listing)) (slot_of self) }
    {
        match self {
            Slot::Open(pending) => Slot::Open(pending.at(listing)),
            Slot::GivenUp(pending) => Slot::GivenUp(pending.at(listing)),
            Slot::Free | Slot::Answered | Slot::Lost => self,
        }
    }

    // What is told of an answer line with this number, and how the number stands afterwards.
    pub fn told(self, message: &Message<'_>) -> (Match, Slot)
        ensures { (n : ℕ) → (kind_of n result.0, slot_of result.1) ≡ tells n (slot_of self) (message_of message.now) }
    {
        let (pending, more, last) = match self {
            Slot::Open(pending) => (pending, Match::More, (Match::Last, Slot::Answered)),
            Slot::GivenUp(pending) => (pending, Match::Late, (Match::LateLast, Slot::Free)),
            Slot::Free | Slot::Answered | Slot::Lost => return (Match::Stray, self),
        };
        match pending.step(message) {
            None => (Match::Stray, self),
            Some(Step::NotNext) => (Match::Misplaced, self),
            Some(Step::Final) => last,
            Some(Step::Onward(listing)) => (more, self.at(listing)),
        }
    }
}
