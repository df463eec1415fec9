// Preparing a request: its command's canonical line, written with the number of a link for its mark.
ghost use Rattle.std.specs.Prelude.{◌≡◌, ◌+◌, ◌%◌, ◌<◌, ◌≤◌, true, length, Err};
ghost use Rattle.line.specs.Meanings.{message_of, read_of};
ghost use Rattle.line.specs.declared.fault.Fault.TheVariants.{ShortBuffer};
ghost use Rattle.numbers.specs.Ours.{sendable_command};
ghost use Rattle.request.specs.Requests.{request_read};
ghost use Rattle.request.specs.Preparing.{LiesReady, Outcome};

use crate::composing::Request;
use line::{Fault, LINE_MAX, Message, Side, read};
use numbers::Pending;
use writer::rewrite;

// A command that is ready to be sent: the length of its line, and what a link keeps of it until it is answered.
// Fixed memory: the line itself lies at the front of the caller's buffer, where its end is still to be put behind it
#[derive(Clone, Copy)]
pub struct Prepared {
    pub length: usize,
    pub pending: Pending,
}

// A command that can be sent has its forms and a line that fits, so neither step can fail.
fn ready(message: &Message<'_>, out: &mut [u8]) -> Prepared
    requires { (sendable_command (message_of message.now) ≡ true) × (1024 ≤ length out.old) }
    ensures { LiesReady (message_of message.now) out.old out.new result }
{
    let pending = Pending::begun(message).unwrap();
    let length = rewrite(message, out).unwrap();
    Prepared { length, pending }
}

// The last digit of a number, as a mark.
fn mark_of(number: u8) -> u8
    ensures { result ≡ 48 + number % 10 }
{
    b'0' + number % 10
}

impl Request<'_> {
    // Reads the request, put together in the buffer with that digit for its mark.
    fn read<'b>(&self, digit: u8, buffer: &'b mut [u8; LINE_MAX]) -> Result<Message<'b>, Fault>
        ensures { read_of result ≡ request_read self.now.address.now digit self.now.body.now }
    {
        let len = self.compose(digit, buffer).ok_or(Fault::TooLong)?;
        read(Side::Command, &buffer[..len])
    }

    // Writes the canonical line of the request's command, with the last digit of the number for its mark, to the front of `out`; or
    // refuses, and touches nothing.
    pub fn prepare(&self, number: u8, out: &mut [u8]) -> Result<Prepared, Fault>
        ensures room { length out.old < 1024 → (result ≡ Err ShortBuffer) × (out.new ≡ out.old) }
        ensures outcome { 1024 ≤ length out.old → Outcome (request_read self.now.address.now (48 + number % 10) self.now.body.now) (48 + number % 10) out.old out.new result }
    {
        if out.len() < LINE_MAX {
            return Err(Fault::ShortBuffer);
        }
        let mut buffer = [0; LINE_MAX];
        let message = self.read(mark_of(number), &mut buffer)?;
        Ok(ready(&message, out))
    }
}
