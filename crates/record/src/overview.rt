// BROWSE_RESULTS_OVERVIEW: what the player found at a handle: its title, the lines in the window, and the lines in all.
ghost use Rattle.std.specs.Prelude.{◌≡◌, length, IfOk, OnOk, Some};
ghost use Rattle.numeral.specs.Numbers.{counted, in_count};
ghost use Rattle.line.specs.Meanings.{message_of};
ghost use Rattle.record.specs.Records.{field_of, texts, overview, if_read};
ghost use Rattle.record.specs.Reads.{Put};
ghost use Rattle.record.specs.Shown.{overview_text};
ghost use Rattle.record.specs.Spans.{Lies};
ghost use Rattle.record.specs.Writes.{wrong_texts, overview_fields_in, Written, OverviewBackIn};

use crate::fields::Fields;
use crate::span::Span;
use escape::{resolve, resolved_len};
use line::{Fault, Message};
use numeral::{count_width, digits};
use std::fmt;
use writer::Writer;

#[derive(Clone, Copy, PartialEq, Eq, Debug)]
pub struct BrowseResultsOverview {
    pub handle: Span,
    pub title: Span,
    pub lines: u16,
    pub total: u16,
}

// Writes handle and title to the front of `out`, and answers where each ends; or writes nothing, for want of room.
fn put_texts(fields: &Fields, out: &mut [u8]) -> Option<(usize, usize)>
    ensures { Put (message_of fields.now.message) out.old out.new result }
{
    let handle = fields.raw(1);
    let title = fields.raw(2);
    let middle = resolved_len(handle);
    let more = resolved_len(title);
    let left = out.len().checked_sub(middle)?;
    if more > left {
        return None;
    }
    let _ = resolve(handle, out);
    let _ = resolve(title, &mut out[middle..]);
    Some((middle, middle + more))
}

// A count as it is written, with no leading zeros. Fixed memory: its digits lie at the end of the caller's buffer.
fn count_digits<'b>(count: u16, buffer: &'b mut [u8; 5]) -> &'b [u8]
    ensures digits { result.now ≡ in_count count }
    ensures back { counted result.now ≡ Some count }
{
    *buffer = digits(u32::from(count));
    &buffer[5 - count_width(count)..]
}

impl BrowseResultsOverview {
    // The overview that a message tells; its handle and title are written to the front of `out`.
    pub fn read(message: &Message, out: &mut [u8]) -> Result<BrowseResultsOverview, Fault>
        ensures answer { result ≡ overview (message_of message.now) (length out.old) }
        ensures after { out.new ≡ if_read result (texts (message_of message.now)) out.old }
        ensures lies { IfOk result (λ o. Lies o.handle (field_of (message_of message.now) 1) out.new × Lies o.title (field_of (message_of message.now) 2) out.new) }
    {
        let fields = Fields { message: *message };
        fields.expect_kind(b"BROWSE_RESULTS_OVERVIEW", 4)?;
        let lines = fields.count(3)?;
        let total = fields.count(4)?;
        let (middle, end) = put_texts(&fields, out).ok_or(Fault::ShortBuffer)?;
        Ok(BrowseResultsOverview {
            handle: Span {
                start: 0,
                end: middle,
            },
            title: Span { start: middle, end },
            lines,
            total,
        })
    }

    // Writes the record, whose handle and title lie in `text`, behind the status of an answer.
    pub fn write(&self, text: &[u8], writer: &mut Writer) -> Result<(), Fault>
        ensures written { Written (wrong_texts self.now.handle self.now.title text.now) (overview_fields_in self.now text.now) writer.old writer.new result }
        ensures back { OnOk result (OverviewBackIn self.now text.now) }
    {
        if !writer.is_bare() {
            return Err(Fault::RecordForm(0));
        }
        writer.add_all(&[
            b"BROWSE_RESULTS_OVERVIEW",
            self.handle.of(text).ok_or(Fault::RecordForm(1))?,
            self.title.of(text).ok_or(Fault::RecordForm(2))?,
            count_digits(self.lines, &mut [0; 5]),
            count_digits(self.total, &mut [0; 5]),
        ])
    }
}

// How much of what was found is in the window; handle and title are in the caller's buffer.
impl fmt::Display for BrowseResultsOverview {
    ghost output = { λ overview. Some (overview_text overview) };

    fn fmt<W: fmt::Write>(&self, f: &mut fmt::Formatter<W>) -> fmt::Result {
        let BrowseResultsOverview { lines, total, .. } = *self;
        write!(f, "{lines} of {total} lines")
    }
}
