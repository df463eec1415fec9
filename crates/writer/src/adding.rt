// Fields added to a line that is open: one, or several at once, or none of them.
ghost use Rattle.std.specs.Prelude.{ℕ, false, List, length};
ghost use Rattle.line.specs.Lines.{Message};
ghost use Rattle.writer.specs.Writing.{Opened, Called, with_field, with_fields, add_fault, all_fault, behind_all};

use crate::lengths::{CHECK_LEN, fields_len, fits};
use crate::page::Writer;
use line::Fault;

impl<'a> Writer<'a> {
    // Adds a field, given as plain bytes, to the line that is open.
    pub fn add(&mut self, field: &[u8]) -> Result<(), Fault>
        ensures { Called self.old self.new result (add_fault self.old.len field.now (length self.old.out.now)) false ((was : List ℕ) (m : Message) → Opened was m self.old.out.now self.old.len → Opened was (with_field m field.now) self.new.out.now self.new.len) }
    {
        self.add_all(&[field])
    }

    // Adds fields, given as plain bytes, to the line that is open.
    pub fn add_all(&mut self, fields: &[&[u8]]) -> Result<(), Fault>
        ensures { Called self.old self.new result (all_fault self.old.len (behind_all fields.now) (length self.old.out.now)) false ((was : List ℕ) (m : Message) → Opened was m self.old.out.now self.old.len → Opened was (with_fields m (behind_all fields.now)) self.new.out.now self.new.len) }
    {
        if self.len == 0 {
            return Err(Fault::ShortBuffer);
        }
        let len = self.len + fields_len(fields)?;
        fits(len + CHECK_LEN, self.out.len())?;
        self.push_fields(fields);
        self.bare = false;
        Ok(())
    }
}
