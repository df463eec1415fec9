// A writer: it holds the caller's buffer, at whose front a line is put together.
ghost use Rattle.std.specs.Prelude.{◌+◌, ◌<◌, ◌≤◌, length};

// `len` bytes of a line are written, none if no line is open. There is always room for the slash and the two digits that close it.
// `bare` says that the line is an answer's, with its status alone.
#[derive(Drop)]
pub struct Writer<'a> {
    // fixed memory: the line stays in the caller's buffer, with its length beside it
    pub(crate) out: &'a mut [u8],
    // 0 where an Option would be None: a byte goes in at this place, and an Option would have to be opened and closed at each
    pub(crate) len: usize,
    // a flag beside the length: an enum of the states of a line would hold the length in two of its cases
    pub(crate) bare: bool,
    ghost ready: { (0 < len → len + 3 ≤ length out.now) },
    ghost short: { len + 3 ≤ 1024 },
}
