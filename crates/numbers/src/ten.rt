// The ten numbers of a link, and the one last given.
ghost use Rattle.std.specs.Prelude.{◌≡◌, ℕ, ◌+◌, ◌<◌, ◌≤◌};
ghost use Rattle.line.specs.Lines.{meant};
ghost use Rattle.line.specs.Meanings.{message_of};
ghost use Rattle.life.specs.Link.{is_free, is_open, Put, Settles, Told, after_reset, count_open};
ghost use Rattle.numbers.specs.Ours.{ours};
ghost use Rattle.numbers.specs.Slots.{pending_of, outcome_of, IfForeign, kind_of, tells};
ghost use Rattle.numbers.specs.Ten.{slots_of, NextFree};

use crate::slot::{Match, Outcome, Pending, Slot};
use line::Message;

const TEN: u8 = 10;

// A slot is read and written by its index: of an element that `get_mut` or a method would lend out of an array, no contract
// says what the array is afterwards (tried: the proof did not close).
#[derive(Drop)]
pub struct Numbers {
    slots: [Slot; 10],
    recent: u8,
}

// What `recent` and `foreign` promise stands in each call as it is: a name would be longer than the fact.
impl Numbers {
    // All are free, and 0 is given first.
    #[tactic(auto, using(crate::proofs::Standing::all_free), unfolding(crate::specs::Ten::slots_of))]
    pub fn new() -> Numbers
        ensures slots { (n : ℕ) → slots_of result n ≡ is_free }
        ensures recent { result.recent ≡ 9 }
    {
        Numbers {
            slots: [Slot::Free; 10],
            recent: 9,
        }
    }

    // The first free number after the one last given, with 0 after 9.
    pub fn next_free(&self) -> Option<u8>
        ensures { NextFree (slots_of self.now) self.now.recent result }
    {
        (0..TEN)
            .map(|i| (self.recent % TEN + 1 + i) % TEN)
            .find(|n| self.slots[usize::from(*n)].is_free())
    }

    // The number n is open, with this command, and is the one last given; a number beyond 9 changes nothing.
    #[tactic(auto, using(crate::proofs::Standing::put_at), unfolding(crate::specs::Ten::slots_of))]
    pub fn open(&mut self, n: u8, pending: Pending)
        ensures slots { n < 10 → Put (slots_of self.old) n (is_open (pending_of pending)) (slots_of self.new) }
        ensures recent { n < 10 → self.new.recent ≡ n }
        ensures beyond { 10 ≤ n → self.new ≡ self.old }
    {
        if n < TEN {
            self.slots[usize::from(n)] = Slot::Open(pending);
            self.recent = n;
        }
    }

    // The ticket of the number n is settled.
    #[tactic(auto, using(crate::proofs::Standing::foreign_kept), unfolding(crate::specs::Ten::slots_of))]
    pub fn settle(&mut self, n: u8) -> Outcome
        ensures slots { Settles (slots_of self.old) n (slots_of self.new) (outcome_of result) }
        ensures recent { self.new.recent ≡ self.old.recent }
        ensures foreign { IfForeign result (self.new ≡ self.old) }
    {
        if n >= TEN {
            return Outcome::Foreign;
        }
        let at = usize::from(n);
        let (outcome, slot) = self.slots[at].settled();
        self.slots[at] = slot;
        outcome
    }

    // What is told of an answer line with the number n.
    #[tactic(auto, using(crate::proofs::Standing::past_free, crate::proofs::Standing::told_put, crate::proofs::Standing::told_kind), unfolding(crate::specs::Ten::slots_of))]
    pub fn told(&mut self, n: u8, message: &Message<'_>) -> Match
        ensures slots { n < 10 → Put (slots_of self.old) n (tells n (slots_of self.old n) (message_of message.now)).1 (slots_of self.new) }
        ensures kind { kind_of n result ≡ (tells n (slots_of self.old n) (message_of message.now)).0 }
        ensures life { (message_of message.now).mark ≡ 48 + n → n < 10 → Told ours (slots_of self.old) (slots_of self.new) (meant (message_of message.now)) (kind_of n result) }
        ensures beyond { 10 ≤ n → self.new ≡ self.old }
        ensures recent { self.new.recent ≡ self.old.recent }
    {
        if n >= TEN {
            return Match::Stray;
        }
        let at = usize::from(n);
        let (told, slot) = self.slots[at].told(message);
        self.slots[at] = slot;
        told
    }

    // Ends all commands, and answers how many numbers became lost.
    #[tactic(auto, using(crate::proofs::Standing::reset_none, crate::proofs::Standing::reset_ended), unfolding(crate::specs::Ten::slots_of))]
    pub fn reset(&mut self) -> u8
        ensures count { result ≡ count_open 10 (slots_of self.old) }
        ensures slots { (n : ℕ) → slots_of self.new n ≡ after_reset (slots_of self.old n) }
        ensures recent { self.new.recent ≡ self.old.recent }
    {
        let mut count = 0;
        for slot in &mut self.slots {
            count += slot.opens();
            *slot = slot.reset();
        }
        count
    }
}
