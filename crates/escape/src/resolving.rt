// Resolving escapes: writing the bytes that a field means into a buffer.
ghost use Rattle.std.specs.Prelude.{◌≡◌, length};
ghost use Rattle.std.specs.Iterator.{YieldsFirst, item_count};
ghost use Rattle.escape.specs.Tokens.{resolved};
ghost use Rattle.escape.specs.Resolving.{fitting, written, meant_by, Shorter};
ghost use Rattle.escape.specs.Texts.{same_bytes};

use crate::{Front, first_of};

// The first byte that `s` means, and what follows it. A broken escape means nothing, nor does what follows it.
fn next_byte(s: &[u8]) -> Option<(u8, &[u8])>
    ensures meaning { meant_by result ≡ resolved s.now }
    ensures shorter { Shorter s.now result }
{
    match first_of(s) {
        Front::Over | Front::Broken => None,
        // tried: the two arms as one; the proof would have to cite a step by a number that the checker gives
        Front::Plain(b, rest) => Some((b, rest)),
        Front::Escape(b, rest) => Some((b, rest)),
    }
}

// The bytes that a field means, from the first one on.
#[derive(Clone, Copy)]
struct Meaning<'a>(&'a [u8]);

impl<'a> Iterator for Meaning<'a> {
    type Item = u8;

    ghost next_gives = { YieldsFirst (λ s. resolved s.0.now) };

    ghost remaining = { item_count (λ s. resolved s.0.now) };

    fn next(&mut self) -> Option<u8> {
        let (b, rest) = next_byte(self.0)?;
        self.0 = rest;
        Some(b)
    }
}

// How many bytes a field means.
pub fn resolved_len(field: &[u8]) -> usize
    ensures { result ≡ length (resolved field.now) }
{
    Meaning(field).count()
}

// Writes what a field means to the front of `out` and answers how long it is; or writes nothing, for want of room.
pub fn resolve(field: &[u8], out: &mut [u8]) -> Option<usize>
    ensures answer { result ≡ fitting (resolved field.now) (length out.old) }
    ensures after { out.new ≡ written (resolved field.now) out.old }
{
    let len = resolved_len(field);
    if len > out.len() {
        return None;
    }
    // by index: of what an adapter of `iter_mut` lends out, no contract says what it holds afterwards
    for (i, b) in Meaning(field).enumerate() {
        out[i] = b;
    }
    Some(len)
}

// Whether a field, with its escapes resolved, is the text.
pub fn means(field: &[u8], text: &[u8]) -> bool
    ensures { result ≡ same_bytes (resolved field.now) text.now }
{
    // tried: `Iterator::eq`; the proof did not close
    let mut meant = Meaning(field);
    for b in text {
        if meant.next() != Some(*b) {
            return false;
        }
    }
    meant.next().is_none()
}
