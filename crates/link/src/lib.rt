// A link to a player over any byte port: it numbers commands, lines come out of the port, and each is told by its kind and matched
// to the command that it answers.
#![tactic(auto)]

mod inner;
mod link;
mod pumped;
mod telling;
mod ticket;

pub use link::Link;
pub use numbers::Outcome;
pub use pumped::{Kind, Pumped};
pub use telling::message;
pub use ticket::Ticket;
