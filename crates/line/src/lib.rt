// Reading one line of bytes, given without its end, as a command or as an answer.
#![tactic(auto)]

mod address;
mod body;
mod check;
mod fault;
mod field;
mod mark;
mod message;
mod reading;

pub use address::address_in;
pub use body::is_first_field;
pub use check::check_sum;
pub use fault::{Fault, Layer};
pub use mark::is_mark;
pub use message::{Address, Message, Side};
pub use reading::{LINE_MAX, read};
