// What submit does: the command's line is put together first, so that a refusal leaves all as it was.
ghost use Rattle.std.specs.Prelude.{◌≡◌, ◌+◌, ◌<◌, ◌≤◌, min, length, nat_le, OnErr};
ghost use Rattle.port.specs.Port.{Written};
ghost use Rattle.life.specs.Link.{is_open, Put};
ghost use Rattle.numbers.specs.Slots.{pending_of};
ghost use Rattle.numbers.specs.Ten.{slots_of};
ghost use Rattle.request.specs.Requests.{request_read};
ghost use Rattle.link.specs.Meanings.{state_of};
ghost use Rattle.link.specs.Submitting.{Submitted, Lined};

use crate::link::Link;
use crate::ticket::Ticket;
use line::Fault;
use numbers::Pending;
use port::Port;
use request::{Prepared, Request};

// Room for the longest line and its end.
const LINE_ROOM: usize = 1025;

// The line of the request's command, with the number for its mark and its end behind it, at the front of `line`.
fn ready_line(request: &Request<'_>, number: u8, line: &mut [u8]) -> Result<Prepared, Fault>
    requires { (1025 ≤ length line.old) × (number < 10) }
    ensures { Lined (request_read request.now.address.now (48 + number) request.now.body.now) (48 + number) line.new result }
{
    let prepared = request.prepare(number, line)?;
    line[prepared.length] = b'\r';
    Ok(prepared)
}

// Whether a line of so many bytes, and its end, have room.
fn has_room(length: usize, room: usize) -> bool
    ensures { result ≡ nat_le (length + 1) room }
{
    length < room
}

impl<P: Port> Link<P> {
    // Writes the line as far as the port has room, and opens the number with its command.
    fn send(&mut self, number: u8, line: &[u8], pending: Pending)
        ensures port { Written (P.Port.meaning self.old.port) (P.Port.meaning self.new.port) line.now (min (length line.now) (P.Port.meaning self.old.port).room_out) }
        ensures slots { number < 10 → Put (slots_of self.old.core.numbers) number (is_open (pending_of pending)) (slots_of self.new.core.numbers) }
        ensures recent { number < 10 → self.new.core.numbers.recent ≡ number }
        ensures link { self.new.core.number ≡ self.old.core.number }
        ensures unfinished { self.new.core.unfinished ≡ self.old.core.unfinished }
    {
        let _ = self.port.write(line);
        self.core.numbers.open(number, pending);
    }

    pub(crate) fn do_submit(&mut self, address: &[u8], body: &[u8]) -> Result<Ticket, Fault>
        ensures does { Submitted (state_of P.Port.meaning self.old) address.now body.now result (state_of P.Port.meaning self.new) }
        ensures refused { OnErr result (self.new ≡ self.old) }
    {
        // the public call takes the two apart, as its callers have them
        let request = Request { address, body };
        let mut line = [0u8; LINE_ROOM];
        let Some(number) = self.core.numbers.next_free() else {
            ready_line(&request, 0, &mut line)?;
            return Err(Fault::NoNumber);
        };
        let prepared = ready_line(&request, number, &mut line)?;
        let (room, _) = self.port.room();
        if !has_room(prepared.length, room) {
            return Err(Fault::NoRoom);
        }
        self.send(number, &line[..=prepared.length], prepared.pending);
        Ok(Ticket {
            link: self.core.number,
            number,
        })
    }
}
