// The ten numbers of a link: how each stands, what comes next in the answer to each, and that the link's codec keeps the laws that
// the promises of its whole life need.
#![tactic(auto)]

ghost use Rattle.life.specs.Codec.{Lawful};
ghost use Rattle.numbers.specs.Ours.{ours};

mod address;
mod listing;
mod slot;
mod ten;
#[cfg(test)]
mod tests;

pub use address::{CommandAddress, Device};
pub use listing::{Listing, Step, is_browse, next_step, overview, result};
pub use numeral::field_count as number_of;
pub use slot::{Match, Outcome, Pending, Slot};
pub use ten::Numbers;

// Lines are read and written as the promises need it.
#[tactic(auto, using(crate::proofs::Lawful::lawful))]
pub fn codec_is_lawful()
    ensures { Lawful ours }
{}
