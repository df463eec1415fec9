// What can be done with a queue: bytes go in and out in runs, at most two copies to a call.
ghost use Rattle.std.specs.Prelude.{◌≡◌, ◌+◌, ◌<◌, ◌≤◌, [], ◌++◌, length};
ghost use Rattle.serial.specs.Queues.{ring, held, Put, Got, Wrapped};
ghost use Rattle.serial.specs.Sizes.{capacity};

use crate::queue::{PLACES, Queue};
use byte_slices::{fill_at, fill_front};

// The place in the ring of the place `n` in two rounds of it.
fn wrap(n: usize) -> usize
    requires { n < capacity + capacity }
    ensures { Wrapped n result }
{
    if n < PLACES { n } else { n - PLACES }
}

// All of `src` behind the `len` bytes from `head` on: one copy up to the ring's end, and one for the rest at its start.
// It takes the fields one by one, since the queue grows only once its bytes are there; so does `copy_round`.
#[tactic(auto, using(crate::proofs::Rings::ring_filled))]
fn put_round(bytes: &mut [u8; PLACES], head: usize, len: usize, src: &[u8])
    requires start { head < capacity }
    requires room { len + length src.now ≤ capacity }
    ensures { ring bytes.new head (len + length src.now) ≡ ring bytes.old head len ++ src.now }
{
    let first = fill_at(bytes, wrap(head + len), src);
    let _ = fill_at(bytes, wrap(head + len + first), &src[first..]);
}

// Fills `dst` with the bytes from `head` on, up to the ring's end and then from its start.
#[tactic(auto, using(crate::proofs::Rings::ring_copied))]
fn copy_round(bytes: &[u8; PLACES], head: usize, dst: &mut [u8])
    requires start { head < capacity }
    requires size { length dst.old ≤ capacity }
    ensures { dst.new ≡ ring bytes.now head (length dst.old) }
{
    let first = fill_front(dst, &bytes[head..]);
    let _ = fill_at(dst, first, bytes);
}

impl Queue {
    pub fn new() -> Queue
        ensures { held result ≡ [] }
    {
        Queue {
            bytes: [0; PLACES],
            head: 0,
            len: 0,
        }
    }

    pub fn len(&self) -> usize
        ensures value { result ≡ length (held self.now) }
        ensures fits { result ≤ capacity }
        ensures field { result ≡ self.now.len }
    {
        self.len
    }

    pub fn empty(&mut self)
        ensures { held self.new ≡ [] }
    {
        self.len = 0;
    }

    // Takes as much of `src` as there is room for, and answers how much.
    pub fn put(&mut self, src: &[u8]) -> usize
        ensures { Put self.old self.new src.now result }
    {
        let k = src.len().min(PLACES - self.len);
        put_round(&mut self.bytes, self.head, self.len, &src[..k]);
        self.len += k;
        k
    }

    // Moves as much as fits to the front of `dst`, and answers how much.
    pub fn get(&mut self, dst: &mut [u8]) -> usize
        ensures { Got self.old self.new dst.old dst.new result }
    {
        let k = dst.len().min(self.len);
        copy_round(&self.bytes, self.head, &mut dst[..k]);
        self.head = wrap(self.head + k);
        self.len -= k;
        k
    }
}
