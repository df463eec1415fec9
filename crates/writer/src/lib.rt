// Writing messages: each has one canonical line, which is written into a buffer of the caller's.
#![tactic(auto)]

mod adding;
mod again;
mod head;
mod laws;
mod lengths;
mod page;
mod pushing;
mod spelled;
mod writing;

pub use again::rewrite;
pub use laws::{canonical_reads_back, one_message_a_line, read_writes_again};
pub use page::Writer;
