// The serial port itself: a queue of what arrived, and a queue of what is to depart.
use crate::queue::Queue;

pub mod as_port;

#[derive(Drop)]
pub struct Serial {
    input: Queue,
    output: Queue,
    // whether it is clear to send, a part of every port
    clear: bool,
}
