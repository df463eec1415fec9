// What can be done with an unfinished line: it takes bytes one by one, and says when it has ended.
ghost use Rattle.std.specs.Prelude.{◌≡◌, ℕ, ◌≤◌, List, ◌∷◌, length};
ghost use Rattle.std.specs.Option.{option_copied};
ghost use Rattle.reader.specs.Stream.{first_cut};
ghost use Rattle.reader.specs.Cutting.{bare, longer as with_byte, whole, by_parts, is_end};
ghost use Rattle.reader.specs.Unfinished.{part_of, went_on};

use crate::unfinished::{MOST, Unfinished};

// One line, as in `inspect`: the two stand on no crate in common that knows lines of a stream.
fn ends_line(byte: u8) -> bool
    ensures { result ≡ is_end byte }
{
    byte == b'\r' || byte == b'\n'
}

impl Unfinished {
    pub fn new() -> Unfinished
        ensures { part_of result ≡ bare }
    {
        Unfinished {
            bytes: [0; MOST],
            len: 0,
            over: false,
        }
    }

    // The bytes held, at most the first 1,024 of the line.
    pub fn held(&self) -> &[u8]
        ensures bytes { result.now ≡ (part_of self.now).kept }
        ensures fits { length result.now ≤ 1024 }
    {
        &self.bytes[..self.len]
    }

    // Whether more of the line came than is held.
    pub fn over(&self) -> bool
        ensures { result ≡ (part_of self.now).over }
    {
        self.over
    }

    // The whole line; none if more of it came than is held.
    pub fn whole(&self) -> Option<&[u8]>
        ensures { option_copied result ≡ whole (part_of self.now) }
    {
        (!self.over).then(|| self.held())
    }

    // Lets the line go.
    pub fn clear(&mut self)
        ensures { part_of self.new ≡ bare }
    {
        self.len = 0;
        self.over = false;
    }

    // One byte more, or that more came.
    fn push(&mut self, byte: u8)
        ensures { part_of self.new ≡ with_byte 1024 (part_of self.old) byte }
    {
        if self.len < MOST {
            self.bytes[self.len] = byte;
            self.len += 1;
        } else {
            self.over = true;
        }
    }

    // Takes the next byte of the stream. True: it ended the line, which is held until it is cleared. A flag, and not the line: a result
    // that borrows from what was lent to be written would keep its owner from knowing what is held.
    pub fn take(&mut self, byte: u8) -> bool
        ensures { (rest : List ℕ) → first_cut by_parts (part_of self.old) (byte ∷ rest) ≡ went_on result (part_of self.new) rest }
    {
        if !ends_line(byte) {
            self.push(byte);
            return false;
        }
        if self.len > 0 {
            return true;
        }
        self.clear();
        false
    }
}
