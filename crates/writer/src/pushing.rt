// Bytes put behind those that a writer has written.
ghost use Rattle.std.specs.Prelude.{◌≡◌, ℕ, ◌+◌, ◌<◌, ◌≤◌, List, [], ◌∷◌, ◌++◌, length};
ghost use Rattle.std.specs.List.{AllByRecursion};
ghost use Rattle.escape.specs.Spelling.{spelled, spelling};
ghost use Rattle.writer.specs.Canonical.{zone_text, body_text};
ghost use Rattle.writer.specs.Laws.{Bytes};
ghost use Rattle.writer.specs.Writing.{Lies, HasRoom, Pushed, line_head, behind_all};

use crate::head::Head;
use crate::page::Writer;
use crate::spelled::numbered;

// Copies bytes behind the `at` bytes that are written, and answers how many are written then.
// The crate `request` has its own: a public function has no precondition here, and this one would ask its callers for the room.
pub(crate) fn put(out: &mut [u8], at: usize, bytes: &[u8]) -> usize
    requires { at + length bytes.now ≤ length out.old }
    ensures end { result ≡ at + length bytes.now }
    ensures lies { (was l : List ℕ) → Lies was l out.old at → Lies was (l ++ bytes.now) out.new result }
{
    let end = at + bytes.len();
    out[at..end].copy_from_slice(bytes);
    end
}

impl<'a> Writer<'a> {
    pub(crate) fn push_all(&mut self, bytes: &[u8])
        requires { HasRoom self.old (length bytes.now) }
        ensures { Pushed self.old self.new bytes.now }
    {
        self.len = put(self.out, self.len, bytes);
    }

    pub(crate) fn push(&mut self, b: u8)
        requires { HasRoom self.old 1 }
        ensures { Pushed self.old self.new (b ∷ []) }
    {
        self.push_all(&[b]);
    }

    pub(crate) fn push_spelled(&mut self, b: u8)
        requires { HasRoom self.old (length (spelled b)) }
        ensures { Pushed self.old self.new (spelled b) }
    {
        match b {
            b':' | b'/' | b'\\' => self.push_all(&[b'\\', b]),
            b'\n' => self.push_all(b"\\n"),
            b'\r' => self.push_all(b"\\r"),
            b'\t' => self.push_all(b"\\t"),
            b' '..=b'~' => self.push(b),
            _ => self.push_all(&numbered(b)),
        }
    }

    fn push_field(&mut self, field: &[u8])
        requires { HasRoom self.old (length (spelling field.now)) }
        ensures bytes { AllByRecursion (λ b. b < 256) field.now }
        ensures pushed { Pushed self.old self.new (spelling field.now) }
    {
        for b in field {
            self.push_spelled(*b);
        }
    }

    pub(crate) fn push_fields(&mut self, fields: &[&[u8]])
        requires { HasRoom self.old (length (body_text (behind_all fields.now))) }
        ensures bytes { Bytes (behind_all fields.now) }
        ensures pushed { Pushed self.old self.new (body_text (behind_all fields.now)) }
    {
        for field in fields {
            self.push_field(field);
            self.push(b':');
        }
    }

    fn push_zone(&mut self, zone: Option<u8>)
        requires { HasRoom self.old (length (zone_text zone)) }
        ensures { Pushed self.old self.new (zone_text zone) }
    {
        if let Some(z) = zone {
            // not `digits`, which has the last two: a caller's message may hold a zone past 99, and what is written of it is promised too
            self.push_all(&[b'.', b'0' + z / 10, b'0' + z % 10]);
        }
    }

    pub(crate) fn push_head(&mut self, head: Head<'_>)
        requires { HasRoom self.old (length (line_head head)) }
        ensures { Pushed self.old self.new (line_head head.entry) }
    {
        self.push_all(head.address.device);
        self.push_zone(head.address.zone);
        self.push_all(&[b'/', head.mark, b'/']);
    }
}
