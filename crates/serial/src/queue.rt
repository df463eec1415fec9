// A queue of bytes in a ring: `len` bytes from the place `head` on, past the ring's end at its start again.
ghost use Rattle.std.specs.Prelude.{◌<◌, ◌≤◌};
ghost use Rattle.serial.specs.Sizes.{capacity};

mod methods;

// The promises say 2,048 by themselves (`capacity`), so the check refuses another size here.
pub const PLACES: usize = 2048;

// Fixed memory: the bytes stay in place, with the place and the length of what is held beside them.
// No `impl Model`: a clause sees all fields, so a call that alters nothing says it of every place of the ring.
#[derive(Drop)]
pub struct Queue {
    bytes: [u8; PLACES],
    head: usize,
    len: usize,
    ghost inside: { head < capacity },
    ghost fits: { len ≤ capacity },
}
