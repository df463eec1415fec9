// The link itself.
ghost use Rattle.std.specs.Prelude.{◌≡◌, IfErr, OnErr};
ghost use Rattle.life.specs.Calls.{quiet, reset as reset_entry};
ghost use Rattle.life.specs.Link.{New, Arrives, Departs, Clears, Settled, Resets};
ghost use Rattle.numbers.specs.Slots.{outcome_of, IfForeign};
ghost use Rattle.link.specs.Meanings.{state_of, pump_entry, settle_entry, arrive_entry, depart_entry, Pumps, LivesOn, LivesOnBy, BeginsLife};
ghost use Rattle.link.specs.Submitting.{Submitted, submit_entry};

use crate::inner::Core;
use crate::pumped::Pumped;
use crate::ticket::Ticket;
use line::Fault;
use numbers::Outcome;
use port::Port;

mod steps;
mod submitting;

#[derive(Drop)]
pub struct Link<P> {
    port: P,
    core: Core,
}

impl<P: Port> Link<P> {
    // A link over the port, with a number by which its tickets are told from those of others.
    #[tactic(auto, using(crate::proofs::Kept::begins_life))]
    pub fn new(port: P, number: u16) -> Link<P>
        ensures port { result.port ≡ port }
        ensures number { result.core.number ≡ number }
        ensures state { New (state_of P.Port.meaning result) }
        ensures life { BeginsLife (state_of P.Port.meaning result) }
    {
        Link {
            port,
            core: Core::new(number),
        }
    }

    pub fn number(&self) -> u16
        ensures { result ≡ (state_of P.Port.meaning self.now).link }
    {
        self.core.number
    }

    // Sends a command, given by its address and its body with its escapes, and answers its ticket. It refuses as reading
    // `address / digit / body / the right check` refuses, then for want of a free number, then for want of room in the port.
    pub fn submit(&mut self, address: &[u8], body: &[u8]) -> Result<Ticket, Fault>
        ensures does { Submitted (state_of P.Port.meaning self.old) address.now body.now result (state_of P.Port.meaning self.new) }
        ensures refused { OnErr result (self.new ≡ self.old) }
        ensures life { LivesOn (state_of P.Port.meaning self.old) (submit_entry address.now body.now result) (state_of P.Port.meaning self.new) }
    {
        self.do_submit(address, body)
    }

    // Hands out the next line that is not empty, of which at most 1,024 bytes are kept: it stands at the buffer's front.
    // Refuses a buffer of fewer than 1,024 bytes.
    pub fn pump(&mut self, buffer: &mut [u8]) -> Result<Pumped, Fault>
        ensures does { Pumps (state_of P.Port.meaning self.old) buffer.old result (state_of P.Port.meaning self.new) buffer.new }
        ensures refused { IfErr result (λ f. (f ≡ Fault.PumpBuffer) × (self.new ≡ self.old)) }
        ensures life { LivesOn (state_of P.Port.meaning self.old) (pump_entry result buffer.new) (state_of P.Port.meaning self.new) }
    {
        self.do_pump(buffer)
    }

    // Spends the ticket. A number that is answered or lost becomes free, and one that is open is given up.
    // Foreign, with nothing altered: the ticket has another link number, or no ticket out holds its number here.
    pub fn settle(&mut self, ticket: Ticket) -> Outcome
        ensures does { Settled (state_of P.Port.meaning self.old) ticket.link ticket.number (outcome_of result) (state_of P.Port.meaning self.new) }
        ensures foreign { IfForeign result (self.new ≡ self.old) }
        ensures life { LivesOnBy ticket.link ticket.number (state_of P.Port.meaning self.old) (settle_entry ticket.link ticket.number result) (state_of P.Port.meaning self.new) }
    {
        self.do_settle(ticket)
    }

    // Hangs up the port, drops the unfinished line, ends every command, and answers how many open numbers became lost by that.
    pub fn reset(&mut self) -> usize
        ensures does { Resets (state_of P.Port.meaning self.old) result (state_of P.Port.meaning self.new) }
        ensures life { LivesOn (state_of P.Port.meaning self.old) (reset_entry result) (state_of P.Port.meaning self.new) }
    {
        self.do_reset()
    }

    // Bytes from the line: the port takes as many as it has room for.
    pub fn arrive(&mut self, bytes: &[u8]) -> usize
        ensures does { Arrives (state_of P.Port.meaning self.old) bytes.now result (state_of P.Port.meaning self.new) }
        ensures life { LivesOn (state_of P.Port.meaning self.old) (arrive_entry bytes.now result) (state_of P.Port.meaning self.new) }
    {
        self.do_arrive(bytes)
    }

    // Bytes to the line: the port moves them to the buffer's front.
    pub fn depart(&mut self, buffer: &mut [u8]) -> usize
        ensures does { Departs (state_of P.Port.meaning self.old) buffer.old buffer.new result (state_of P.Port.meaning self.new) }
        ensures life { LivesOn (state_of P.Port.meaning self.old) (depart_entry result buffer.new) (state_of P.Port.meaning self.new) }
    {
        self.do_depart(buffer)
    }

    // Whether it is clear to send.
    pub fn clear(&mut self, value: bool)
        ensures does { Clears (state_of P.Port.meaning self.old) value (state_of P.Port.meaning self.new) }
        ensures life { LivesOn (state_of P.Port.meaning self.old) quiet (state_of P.Port.meaning self.new) }
    {
        self.do_clear(value);
    }
}
