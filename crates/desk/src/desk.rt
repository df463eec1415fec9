// A desk: a link, and the tickets that the script holds of it.
ghost use Rattle.std.specs.Prelude.{◌≡◌, ◌<◌, replicate, Some, None, slice_index_or, slice_set};
ghost use Rattle.link.specs.Meanings.{state_of};
ghost use Rattle.script.specs.Script.{submit, pump, settle, settle_other, arrive, depart, or_unknown};
ghost use Rattle.script.specs.Meanings.{asked};
ghost use Rattle.desk.specs.Desks.{SettledIf, SettledAll, ObeyedBy, ObeyedApart};

use crate::row::Row;
use escape::resolve;
use link::{Link, Outcome, Ticket};
use port::Port;
use script::Call;
use serial::Serial;

// Whoever has a desk closes it, since tickets cannot be let go.
pub struct Desk<P> {
    link: Link<P>,
    // the ticket that is held for each number
    tickets: [Option<Ticket>; 10],
}

// The link number of a link that is made for its ticket alone.
const OTHER_LINK: u16 = 2;

// Settles the ticket, if there is one.
fn settle_held<P: Port>(link: &mut Link<P>, held: Option<Ticket>) -> Option<Outcome>
    ensures { SettledIf (state_of P.Port.meaning link.old) held result (state_of P.Port.meaning link.new) }
{
    Some(link.settle(held?))
}

impl<P: Port> Desk<P> {
    pub fn new(link: Link<P>) -> Desk<P>
        ensures link { result.link ≡ link }
        ensures tickets { result.tickets ≡ replicate 10 None }
    {
        Desk {
            link,
            tickets: [const { None }; 10],
        }
    }

    // Holds the ticket for its number. One that was held for it would be settled, and the link gives no number whose ticket is out.
    fn hold(&mut self, n: usize, ticket: Ticket) -> Option<Outcome>
        requires { n < 10 }
        ensures before { SettledIf (state_of P.Port.meaning self.old.link) (slice_index_or self.old.tickets n None) result (state_of P.Port.meaning self.new.link) }
        ensures tickets { self.new.tickets ≡ slice_set self.old.tickets n (Some ticket) }
    {
        let before = self.tickets[n].replace(ticket);
        settle_held(&mut self.link, before)
    }

    fn submit(&mut self, address: &[u8], body: &[u8]) -> Row
        ensures { ObeyedApart P.Port.meaning self.old self.new (submit address.now body.now) result }
    {
        match self.link.submit(address, body) {
            Ok(ticket) => {
                let n = ticket.number();
                let _ = self.hold(usize::from(n), ticket);
                Row::Ticket(n)
            }
            Err(fault) => Row::Refused(fault),
        }
    }

    fn pump(&mut self, n: usize, buffer: &mut [u8]) -> Row
        ensures { ObeyedBy P.Port.meaning self.old self.new buffer.old buffer.new (pump n) result }
    {
        let end = n.min(buffer.len());
        match self.link.pump(&mut buffer[..end]) {
            Ok(pumped) => Row::Pumped(pumped),
            Err(fault) => Row::Refused(fault),
        }
    }

    fn depart(&mut self, n: usize, buffer: &mut [u8]) -> Row
        ensures { ObeyedBy P.Port.meaning self.old self.new buffer.old buffer.new (depart n) result }
    {
        let end = n.min(buffer.len());
        Row::Departed(self.link.depart(&mut buffer[..end]))
    }

    fn settle(&mut self, n: usize) -> Row
        ensures { ObeyedApart P.Port.meaning self.old self.new (settle n) result }
    {
        if n >= 10 {
            return Row::NoTicket;
        }
        let held = self.tickets[n].take();
        match settle_held(&mut self.link, held) {
            Some(outcome) => Row::Settled(outcome),
            None => Row::NoTicket,
        }
    }

    // A ticket of another link, that is made for it.
    fn settle_other(&mut self) -> Row
        ensures { ObeyedApart P.Port.meaning self.old self.new settle_other result }
    {
        let mut other = Link::new(Serial::new(), OTHER_LINK);
        match other.submit(b"01", b"PLAY:") {
            Ok(ticket) => Row::Settled(self.link.settle(ticket)),
            Err(fault) => Row::Refused(fault),
        }
    }

    fn arrive(&mut self, text: &[u8], buffer: &mut [u8]) -> Row
        ensures { ObeyedBy P.Port.meaning self.old self.new buffer.old buffer.new (arrive text.now) result }
    {
        match resolve(text, buffer) {
            Some(n) => Row::Arrived(self.link.arrive(&buffer[..n])),
            None => Row::Unknown,
        }
    }

    // Does what is asked for, if that is known, and answers its row.
    pub fn obey(&mut self, call: Option<Call<'_>>, buffer: &mut [u8]) -> Row
        ensures { ObeyedBy P.Port.meaning self.old self.new buffer.old buffer.new (or_unknown call.entry asked) result }
    {
        let Some(call) = call else {
            return Row::Unknown;
        };
        match call {
            Call::Submit { address, body } => self.submit(address, body),
            Call::Pump(n) => self.pump(n, buffer),
            Call::Settle(n) => self.settle(usize::from(n)),
            Call::SettleOther => self.settle_other(),
            Call::Reset => Row::Reset(self.link.reset()),
            Call::Arrive(text) => self.arrive(text, buffer),
            Call::Depart(n) => self.depart(n, buffer),
            Call::Clear(value) => {
                self.link.clear(value);
                Row::Clear(value)
            }
        }
    }

    // Settles all that is held, and hands the link back. The array is taken apart, since a loop over it would let its iterator go, and
    // with that the tickets that it may still hold.
    pub fn close(self) -> Link<P>
        ensures { SettledAll (state_of P.Port.meaning self.link) self.tickets (state_of P.Port.meaning result) }
    {
        let Desk { mut link, tickets } = self;
        let [t0, t1, t2, t3, t4, t5, t6, t7, t8, t9] = tickets;
        let _ = settle_held(&mut link, t0);
        let _ = settle_held(&mut link, t1);
        let _ = settle_held(&mut link, t2);
        let _ = settle_held(&mut link, t3);
        let _ = settle_held(&mut link, t4);
        let _ = settle_held(&mut link, t5);
        let _ = settle_held(&mut link, t6);
        let _ = settle_held(&mut link, t7);
        let _ = settle_held(&mut link, t8);
        let _ = settle_held(&mut link, t9);
        link
    }
}
