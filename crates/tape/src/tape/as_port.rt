// A tape as a port: nothing arrives but the recording, and no place is written twice.
// Where a port may let its rooms rise, the tape promises more: its calls keep the room to write, so no written place is given back.
ghost use Rattle.std.specs.Prelude.{◌≡◌, IfOk};
ghost use Rattle.port.specs.Port.{Departed, Fetched, HungUp};
ghost use Rattle.port.specs.Runs.{Keeps};
ghost use Rattle.tape.specs.Tapes.{tape, blank, KeepsPlaces};

use crate::tape::Tape;
use byte_slices::fill_from;
use port::Port;
use std::alloc::{AllocError, Global};

impl Tape {
    // A tape that plays the recording, with so many places to write.
    #[tactic(auto, using(port::proofs::Runs::keeps, std::proofs::lemmas::List::take_all))]
    pub fn new(heap: Global, recording: Vec<u8>, places: usize) -> Result<Tape, AllocError>
        ensures meaning { IfOk result (λ t. tape t ≡ blank recording.items places) }
        ensures keeps { IfOk result (λ t. Keeps (tape t)) }
    {
        let out = Vec::with_capacity(heap, places)?;
        Ok(Tape {
            recording,
            played: 0,
            out,
            sent: 0,
            places,
            clear: true,
        })
    }
}

impl Port for Tape {
    ghost meaning = { tape };

    fn arrive(&mut self, _bytes: &[u8]) -> usize {
        0
    }

    fn depart(&mut self, buffer: &mut [u8]) -> usize
        ensures does { Departed (tape self.old) (tape self.new) buffer.old buffer.new result }
        ensures places { KeepsPlaces self.old self.new }
    {
        let (sent, end) = (self.sent, self.out.len());
        let k = fill_from(buffer, &self.out, sent, end);
        self.sent = sent + k;
        k
    }

    fn read(&mut self, buffer: &mut [u8]) -> (usize, usize)
        ensures does { Fetched (tape self.old) (tape self.new) buffer.old buffer.new result.0 result.1 }
        ensures places { KeepsPlaces self.old self.new }
    {
        let (played, end) = (self.played, self.recording.len());
        let k = fill_from(buffer, &self.recording, played, end);
        self.played = played + k;
        (k, end - played - k)
    }

    fn write(&mut self, bytes: &[u8]) -> usize {
        let k = bytes.len().min(self.places - self.out.len());
        self.out.extend_from_slice(&bytes[..k]).unwrap();
        k
    }

    fn room(&self) -> (usize, bool) {
        (self.places - self.out.len(), self.clear)
    }

    fn clear(&mut self, value: bool) {
        self.clear = value;
    }

    fn hangup(&mut self)
        ensures does { HungUp (tape self.old) (tape self.new) }
        ensures places { KeepsPlaces self.old self.new }
    {
        self.played = self.recording.len();
        self.sent = self.out.len();
    }
}
