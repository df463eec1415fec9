// Lines out of a stream of bytes: what is held of a line that has not ended yet, and the taking of bytes from a port until one ends.
#![tactic(auto)]

mod taking;
mod unfinished;

pub use taking::next_line;
pub use unfinished::Unfinished;
