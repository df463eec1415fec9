// A serial port as a port. It keeps Clear for whoever asks, and does not heed it.
ghost use Rattle.std.specs.Prelude.{◌≡◌};
ghost use Rattle.port.specs.Runs.{Keeps};
ghost use Rattle.serial.specs.Serials.{serial, idle};

use crate::queue::{PLACES, Queue};
use crate::serial::Serial;
use port::Port;

impl Serial {
    #[tactic(auto, using(port::proofs::Runs::keeps))]
    pub fn new() -> Serial
        ensures meaning { serial result ≡ idle }
        ensures keeps { Keeps (serial result) }
    {
        Serial {
            input: Queue::new(),
            output: Queue::new(),
            clear: true,
        }
    }
}

impl Port for Serial {
    ghost meaning = { serial };

    fn arrive(&mut self, bytes: &[u8]) -> usize {
        self.input.put(bytes)
    }

    fn depart(&mut self, buffer: &mut [u8]) -> usize {
        self.output.get(buffer)
    }

    fn read(&mut self, buffer: &mut [u8]) -> (usize, usize) {
        let k = self.input.get(buffer);
        (k, self.input.len())
    }

    fn write(&mut self, bytes: &[u8]) -> usize {
        self.output.put(bytes)
    }

    fn room(&self) -> (usize, bool) {
        (PLACES - self.output.len(), self.clear)
    }

    fn clear(&mut self, value: bool) {
        self.clear = value;
    }

    fn hangup(&mut self) {
        self.input.empty();
        self.output.empty();
    }
}
