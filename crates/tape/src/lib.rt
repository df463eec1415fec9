// A port that plays a recording, and keeps what is written to it.
#![tactic(auto)]

mod tape;
#[cfg(test)]
mod tests;

pub use tape::Tape;
