// The calls that begin and close a line.
ghost use Rattle.std.specs.Prelude.{◌≡◌, ◌≢◌, ℕ, ◌+◌, ◌<◌, ◌≤◌, false, List, length, Err, OnOk};
ghost use Rattle.line.specs.Forms.{check_of};
ghost use Rattle.line.specs.Lines.{Message};
ghost use Rattle.line.specs.Meanings.{side_of};
ghost use Rattle.writer.specs.Canonical.{in_two_digits, closed};
ghost use Rattle.writer.specs.Writing.{is_answer, Lies, Opened, Closed, Called, begun, begin_fault};

use crate::head::Head;
use crate::lengths::{CHECK_LEN, fits};
use crate::page::Writer;
use crate::pushing::put;
use line::{Fault, Side, address_in, check_sum};
use numeral::digits;

impl<'a> Writer<'a> {
    // A writer over the buffer, with no line open.
    pub fn over(out: &'a mut [u8]) -> Writer<'a>
        ensures none { result.len ≡ 0 }
        ensures bare { result.bare ≡ false }
        ensures kept { result.out.now ≡ out.old }
        ensures lender { result.out.ghost_name ≡ out.entry.ghost_name }
    {
        Writer {
            out,
            len: 0,
            bare: false,
        }
    }

    // Whether the line is an answer's, with its status alone.
    pub fn is_bare(&self) -> bool
        ensures { result ≡ self.now.bare }
    {
        self.bare
    }

    // Begins the line of a message with its first field alone; one that is open already is given up.
    pub fn begin(
        &mut self,
        side: Side,
        address: &[u8],
        mark: char,
        first: &[u8],
    ) -> Result<(), Fault>
        ensures called { Called self.old self.new result (begin_fault (side_of side) address.now mark first.now (length self.old.out.now)) (is_answer (side_of side)) (Opened self.old.out.now (begun (side_of side) address.now mark first.now) self.new.out.now self.new.len) }
        // parts that have their forms make a line of at most 87 bytes, with its check
        ensures short { OnOk result (self.new.len + 3 ≤ 87) }
        ensures never_long { result ≢ Err Fault.TooLong }
    {
        let address = address_in(side, address).ok_or(Fault::BadAddress)?;
        let head = Head::new(side, address, mark)?;
        head.takes(Some(first))?;
        fits(head.len() + first.len() + 1 + CHECK_LEN, self.out.len())?;
        self.len = 0;
        self.push_head(head);
        // the first field is spelled as it is
        self.push_all(first);
        self.push(b':');
        self.bare = is_answer(side);
        Ok(())
    }

    // Closes the line and answers its length, or 0 if none is open.
    pub fn close(self) -> usize
        ensures closed { (was : List ℕ) (m : Message) → Opened was m self.entry.out.now self.entry.len → Closed was m self.exit.0.now result }
        ensures lies { (was l : List ℕ) → 0 < self.entry.len → Lies was l self.entry.out.now self.entry.len → Lies was (closed l) self.exit.0.now result }
        ensures none { self.entry.len ≡ 0 → (result ≡ 0) × (self.exit.0.now ≡ self.entry.out.now) }
    {
        let Writer { out, len, .. } = self;
        end(out, len)
    }
}

fn is_answer(side: Side) -> bool
    ensures { result ≡ is_answer (side_of side) }
{
    matches!(side, Side::Answer)
}

// Closes the line of `len` bytes at the buffer's front, if there is one, and answers how long it is then.
fn end(out: &mut [u8], len: usize) -> usize
    requires { 0 < len → len + 3 ≤ length out.old }
    ensures lies { (was l : List ℕ) → 0 < len → Lies was l out.old len → Lies was (closed l) out.new result }
    ensures none { len ≡ 0 → (result ≡ 0) × (out.new ≡ out.old) }
{
    if len == 0 {
        return 0;
    }
    let at = put(out, len, b"/");
    let check = check_digits(&out[..at]);
    put(out, at, &check)
}

// The check of a line that goes up to its third slash.
#[tactic(auto, using(crate::proofs::Digits::in_two))]
fn check_digits(line: &[u8]) -> [u8; 2]
    ensures { result ≡ in_two_digits (check_of line.now) }
{
    digits::<2>(u32::from(check_sum(line)))
}
