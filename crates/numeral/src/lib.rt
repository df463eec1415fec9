// Numbers in decimal digits: read from the fields of a line, and written.
#![tactic(auto)]

mod reading;
mod writing;

pub use reading::{field_count, field_number};
pub use writing::{count_width, digits};
