// A port over a serial line: a queue of bytes for each direction, in memory of its own.
#![tactic(auto)]

mod queue;
mod serial;
#[cfg(test)]
mod tests;

pub use serial::Serial;
