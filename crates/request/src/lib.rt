// Commands as callers give them: an address and a body with its escapes, made into the command's canonical line.
#![tactic(auto)]

mod composing;
mod laws;
mod preparing;
#[cfg(test)]
mod tests;

pub use composing::Request;
pub use laws::{digit_is_untold, requests_can_be_sent};
pub use preparing::Prepared;
