// Lines of a script for the link, one call to a line.
#![tactic(auto)]

mod call;
mod words;

pub use call::{Call, asked_by};
