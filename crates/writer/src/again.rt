// Writing a message that was read: its body is taken byte by byte, and each is spelled anew.
ghost use Rattle.std.specs.Prelude.{◌≡◌, ◌+◌, ◌≤◌, cond, [], ◌∷◌, ◌++◌, length};
ghost use Rattle.escape.specs.Spelling.{spelled};
ghost use Rattle.escape.specs.Tokens.{tokens};
ghost use Rattle.line.specs.Meanings.{message_of};
ghost use Rattle.writer.specs.Canonical.{closed, canonical};
ghost use Rattle.writer.specs.Writing.{Lies, Measured, HasRoom, Pushed, line_head};
ghost use Rattle.writer.specs.Rewriting.{rewrite_fault, rewrite_answer, rewritten, respelt};

use crate::head::Head;
use crate::lengths::{CHECK_LEN, fits, sum_within};
use crate::page::Writer;
use crate::spelled::spelled_len;
use escape::{Front, first_of};
use line::{Fault, Message};

// The length of a body as it is spelled anew, unless that is past the longest line.
fn body_len(body: &[u8]) -> Result<usize, Fault>
    ensures { Measured (length (respelt (tokens body.now))) result }
{
    let mut rest = body;
    let mut n = 0;
    // a loop, and not a sum over an iterator: it stops as soon as the line is too long
    loop {
        let (len, more) = match first_of(rest) {
            Front::Over | Front::Broken => return Ok(n),
            Front::Plain(b':', more) => (1, more), // it ends a field
            Front::Plain(b, more) => (spelled_len(b), more),
            Front::Escape(b, more) => (spelled_len(b), more),
        };
        n = sum_within(n, len)?;
        rest = more;
    }
}

impl<'a> Writer<'a> {
    // The colon that ends a field, or else a byte of one.
    fn push_byte(&mut self, b: u8, ends: bool)
        requires { HasRoom self.old (length (cond ends (58 ∷ []) (spelled b))) }
        ensures { Pushed self.old self.new (cond ends (58 ∷ []) (spelled b)) }
    {
        if ends {
            self.push(b':');
        } else {
            self.push_spelled(b);
        }
    }

    fn push_body(&mut self, body: &[u8])
        requires { HasRoom self.old (length (respelt (tokens body.now))) }
        ensures { Pushed self.old self.new (respelt (tokens body.now)) }
    {
        let mut rest = body;
        // a loop over tokens, as in `body_len`
        loop {
            match first_of(rest) {
                Front::Over | Front::Broken => return,
                Front::Plain(b, more) => {
                    self.push_byte(b, b == b':');
                    rest = more;
                }
                Front::Escape(b, more) => {
                    self.push_byte(b, false);
                    rest = more;
                }
            }
        }
    }
}

// Writes a line with its check to the front of `out`, where there is room for it, and answers its length.
fn put_line(out: &mut [u8], head: Head<'_>, body: &[u8]) -> usize
    requires buffer { length (line_head head) + length (respelt (tokens body.now)) + 3 ≤ length out.old }
    requires line { length (line_head head) + length (respelt (tokens body.now)) + 3 ≤ 1024 }
    ensures { Lies out.old (closed (line_head head.entry ++ respelt (tokens body.now))) out.new result }
{
    let mut writer = Writer::over(out);
    writer.push_head(head);
    writer.push_body(body);
    writer.close()
}

// Writes the canonical line of a message that was read to the front of `out`, and answers its length.
pub fn rewrite(message: &Message<'_>, out: &mut [u8]) -> Result<usize, Fault>
    ensures answer { result ≡ rewrite_answer (canonical (message_of message.now)) (rewrite_fault (message_of message.now) (length out.old)) }
    ensures after { out.new ≡ rewritten (canonical (message_of message.now)) out.old (rewrite_fault (message_of message.now) (length out.old)) }
{
    let head = Head::of(message)?;
    head.takes(message.raw_field(0))?;
    let body = message.body();
    let len = sum_within(head.len(), body_len(body)? + CHECK_LEN)?;
    fits(len, out.len())?;
    Ok(put_line(out, head, body))
}
