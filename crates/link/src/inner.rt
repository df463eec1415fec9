// What a link holds beside its port.
use numbers::Numbers;
use reader::Unfinished;

mod hand_out;
mod made;

#[derive(Drop)]
pub struct Core {
    pub number: u16,
    pub unfinished: Unfinished,
    // how each of the ten numbers stands, and which was given last
    pub numbers: Numbers,
}
