// The fields of a message by their index: index 0 is the status or name.
ghost use Rattle.std.specs.Prelude.{◌≡◌, length};
ghost use Rattle.std.specs.List.{slice_get};
ghost use Rattle.escape.specs.Tokens.{parts};
ghost use Rattle.escape.specs.Resolving.{fitting, written};
ghost use Rattle.line.specs.Lines.{fields_of};
ghost use Rattle.line.specs.Meanings.{message_of};
ghost use Rattle.line.specs.Reads.{behind};
ghost use Rattle.line.specs.Fields.{body_of, raw_fields, before_last, field_answer, field_written, is_text};

use crate::body::first_field;
use crate::fault::Fault;
use crate::message::Message;
use escape::{cut, means, resolve};

// The part of a body before the colon of that index.
fn part_at(body: &[u8], index: usize) -> Option<&[u8]>
    ensures { behind result ≡ slice_get (before_last (parts 58 body.now)) index }
{
    let mut rest = body;
    // a count, and no index: an iterator of parts would give no word of what is left behind each
    for _passed in 0..index {
        rest = cut(rest, b':')?.1;
    }
    Some(cut(rest, b':')?.0)
}

// Copies bytes to the front of `out` and answers how many; or copies nothing, for want of room.
fn copy_to_front(bytes: &[u8], out: &mut [u8]) -> Option<usize>
    ensures answer { result ≡ fitting bytes.now (length out.old) }
    ensures after { out.new ≡ written bytes.now out.old }
{
    // tried: `out.get_mut(..bytes.len())?`; the proof of what `out` then holds did not close
    if bytes.len() > out.len() {
        return None;
    }
    out[..bytes.len()].copy_from_slice(bytes);
    Some(bytes.len())
}

impl<'a> Message<'a> {
    // The part of the line that holds the fields.
    pub fn body(&self) -> &'a [u8]
        ensures { result.now ≡ body_of self.now }
    {
        match self {
            Message::Answer { body, .. }
            | Message::Event { body, .. }
            | Message::Command { body, .. } => body,
        }
    }

    // A field as it stands in the line, with its escapes.
    pub fn raw_field(&self, index: usize) -> Option<&'a [u8]>
        ensures { behind result ≡ slice_get (raw_fields (fields_of (body_of self.now))) index }
    {
        let body = self.body();
        let _first = first_field(body)?;
        part_at(body, index)
    }

    // Writes a field, with its escapes resolved, to the front of `out` and answers its length.
    pub fn field(&self, index: usize, out: &mut [u8]) -> Result<usize, Fault>
        ensures answer { result ≡ field_answer index (length out.old) (slice_get (message_of self.now).fields index) }
        ensures after { out.new ≡ field_written out.old (slice_get (message_of self.now).fields index) }
    {
        let raw = self.raw_field(index).ok_or(Fault::NoField(index))?;
        // a status or name has no escapes
        let written = if index == 0 {
            copy_to_front(raw, out)
        } else {
            resolve(raw, out)
        };
        written.ok_or(Fault::ShortBuffer)
    }

    // Whether a field is there and, with its escapes resolved, is the text.
    pub fn field_is(&self, index: usize, text: &[u8]) -> bool
        ensures { result ≡ is_text text.now (slice_get (message_of self.now).fields index) }
    {
        match self.raw_field(index) {
            None => false,
            // a status or name has no escapes
            Some(raw) if index == 0 => raw == text,
            Some(raw) => means(raw, text),
        }
    }
}
