// A desk at which a script drives a link: the lines of the script, what each call does, and the row that is told of it.
#![tactic(auto)]

mod desk;
mod lines;
mod row;

pub use desk::Desk;
pub use lines::{first_line, is_silent, without_port};
pub use row::{Row, Told};
