// What a call does to the link and its port. The public calls add to this the law over the link's whole life: so a wrong step is refused
// by what it does, and not in the proof of that law.
ghost use Rattle.std.specs.Prelude.{◌≡◌, IfErr, nat_le};
ghost use Rattle.life.specs.Link.{Arrives, Departs, Clears, Settled, Resets};
ghost use Rattle.numbers.specs.Slots.{outcome_of, IfForeign};
ghost use Rattle.link.specs.Meanings.{state_of, Pumps};

use crate::link::Link;
use crate::pumped::Pumped;
use crate::ticket::Ticket;
use line::{Fault, LINE_MAX};
use numbers::Outcome;
use port::Port;
use reader::next_line;

// Whether a buffer of so many bytes takes every line.
fn takes_lines(length: usize) -> bool
    ensures { result ≡ nat_le 1024 length }
{
    length >= LINE_MAX
}

impl<P: Port> Link<P> {
    pub(crate) fn do_pump(&mut self, buffer: &mut [u8]) -> Result<Pumped, Fault>
        ensures does { Pumps (state_of P.Port.meaning self.old) buffer.old result (state_of P.Port.meaning self.new) buffer.new }
        ensures refused { IfErr result (λ f. (f ≡ Fault.PumpBuffer) × (self.new ≡ self.old)) }
    {
        if !takes_lines(buffer.len()) {
            return Err(Fault::PumpBuffer);
        }
        if !next_line(&mut self.port, &mut self.core.unfinished) {
            return Ok(Pumped::Dry);
        }
        Ok(self.core.hand_out(buffer))
    }

    pub(crate) fn do_settle(&mut self, ticket: Ticket) -> Outcome
        ensures does { Settled (state_of P.Port.meaning self.old) ticket.link ticket.number (outcome_of result) (state_of P.Port.meaning self.new) }
        ensures foreign { IfForeign result (self.new ≡ self.old) }
    {
        let Ticket { link, number } = ticket;
        if link != self.core.number {
            return Outcome::Foreign;
        }
        self.core.numbers.settle(number)
    }

    pub(crate) fn do_reset(&mut self) -> usize
        ensures { Resets (state_of P.Port.meaning self.old) result (state_of P.Port.meaning self.new) }
    {
        self.port.hangup();
        self.core.unfinished.clear();
        usize::from(self.core.numbers.reset())
    }

    pub(crate) fn do_arrive(&mut self, bytes: &[u8]) -> usize
        ensures { Arrives (state_of P.Port.meaning self.old) bytes.now result (state_of P.Port.meaning self.new) }
    {
        self.port.arrive(bytes)
    }

    pub(crate) fn do_depart(&mut self, buffer: &mut [u8]) -> usize
        ensures { Departs (state_of P.Port.meaning self.old) buffer.old buffer.new result (state_of P.Port.meaning self.new) }
    {
        self.port.depart(buffer)
    }

    pub(crate) fn do_clear(&mut self, value: bool)
        ensures { Clears (state_of P.Port.meaning self.old) value (state_of P.Port.meaning self.new) }
    {
        self.port.clear(value);
    }
}
