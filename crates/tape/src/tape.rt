// The tape itself: a recording to play, and places to write, each of which is written once.
ghost use Rattle.std.specs.Prelude.{◌≤◌, vec_len, vec_capacity};

pub mod as_port;

#[derive(Drop)]
pub struct Tape {
    recording: Vec<u8>,
    // how much of the recording was played
    played: usize,
    out: Vec<u8>,
    // how much of what was written departed
    sent: usize,
    // how much may be written; the memory for all of it is there from the start, so that no write can fail
    places: usize,
    // whether it is clear to send, a part of every port
    clear: bool,
    ghost playing: { played ≤ vec_len recording },
    ghost order: { sent ≤ vec_len out },
    ghost within: { vec_len out ≤ places },
    ghost reserved: { places ≤ vec_capacity out },
}
