// The line that has not ended yet: its first 1,024 bytes, and whether more of it came.
ghost use Rattle.std.specs.Prelude.{◌≤◌};

mod methods;

pub const MOST: usize = 1024;

// Bytes with their length beside: a vector of fixed capacity writes a blank over each byte when it is cleared, where this forgets them at once.
// No `impl Model`: a clause sees all fields, so a call that alters nothing says it of every byte, and the bound is known of every value.
#[derive(Drop)]
pub struct Unfinished {
    bytes: [u8; MOST],
    len: usize,
    // a flag, and no Option round the bytes: the first ones are held, and handed out, also of a line that is too long
    over: bool,
    ghost fits: { len ≤ 1024 },
}
