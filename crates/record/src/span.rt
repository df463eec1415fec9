// A part of the caller's buffer: the bytes from `start` up to and without `end`. It is no `Range`, since a record is copied
// and a `Range` cannot be, and no slice, since a record may outlive what it was read into.
ghost use Rattle.std.specs.Prelude.{◌≡◌, if◌then◌else◌, Some, None};
ghost use Rattle.line.specs.Reads.{behind};
ghost use Rattle.record.specs.Writes.{within, part};

#[derive(Clone, Copy, PartialEq, Eq, Debug)]
pub struct Span {
    pub start: usize,
    pub end: usize,
}

impl Span {
    // The bytes of the part, if the buffer reaches so far.
    pub fn of<'a>(&self, text: &'a [u8]) -> Option<&'a [u8]>
        ensures { behind result ≡ (if within self.now text.now then Some (part self.now text.now) else None) }
    {
        text.get(self.start..self.end)
    }
}
