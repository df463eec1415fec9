// TITLE_NAME: the title of what plays.
ghost use Rattle.std.specs.Prelude.{◌≡◌, length, IfOk, OnOk};
ghost use Rattle.line.specs.Meanings.{message_of};
ghost use Rattle.record.specs.Records.{field_of, title_name, if_read};
ghost use Rattle.record.specs.Spans.{Lies};
ghost use Rattle.record.specs.Writes.{title_fields, part, wrong_title, Written, TitleBack};

use crate::fields::Fields;
use crate::span::Span;
use escape::resolve;
use line::{Fault, Message};
use writer::Writer;

#[derive(Clone, Copy, PartialEq, Eq, Debug)]
pub struct TitleName {
    pub title: Span,
}

impl TitleName {
    // The title that a message tells, written to the front of `out`.
    pub fn read(message: &Message, out: &mut [u8]) -> Result<TitleName, Fault>
        ensures answer { result ≡ title_name (message_of message.now) (length out.old) }
        ensures after { out.new ≡ if_read result (field_of (message_of message.now) 1) out.old }
        ensures lies { IfOk result (λ t. Lies t.title (field_of (message_of message.now) 1) out.new) }
    {
        let fields = Fields { message: *message };
        fields.expect_kind(b"TITLE_NAME", 1)?;
        let end = resolve(fields.raw(1), out).ok_or(Fault::ShortBuffer)?;
        Ok(TitleName {
            title: Span { start: 0, end },
        })
    }

    // Writes the record, whose title lies in `text`, behind the status of an answer.
    pub fn write(&self, text: &[u8], writer: &mut Writer) -> Result<(), Fault>
        ensures written { Written (wrong_title self.now.title text.now) (title_fields (part self.now.title text.now)) writer.old writer.new result }
        ensures back { OnOk result (TitleBack (part self.now.title text.now)) }
    {
        if !writer.is_bare() {
            return Err(Fault::RecordForm(0));
        }
        let title = self.title.of(text).ok_or(Fault::RecordForm(1))?;
        writer.add_all(&[b"TITLE_NAME", title])
    }
}
