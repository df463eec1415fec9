// A byte port: bytes arrive from the line and are read by the program, bytes are written by the program and depart to the line.
#![tactic(auto)]

ghost use Rattle.std.specs.Prelude.{◌≡◌};
ghost use Rattle.port.specs.Port.{Meaning, Arrived, Departed, Fetched, Written, Cleared, HungUp};

mod law;
mod line_control;

pub use law::bytes_are_kept;
pub use line_control::LineControl;

// What each call changes is said by one relation of what the port means before and after it; what a relation keeps equal, the call keeps.
pub trait Port {
    // In, Out, RoomIn, RoomOut, Heeds and Clear.
    ghost meaning: { Self → Meaning };

    // Takes as many of the bytes as there is room for, joins them to the end of In, and answers how many.
    fn arrive(&mut self, bytes: &[u8]) -> usize
        ensures { Arrived (meaning self.old) (meaning self.new) bytes.now result };

    // Moves bytes from the front of Out to the front of the buffer, unless it has to wait for Clear, and answers how many.
    fn depart(&mut self, buffer: &mut [u8]) -> usize
        ensures { Departed (meaning self.old) (meaning self.new) buffer.old buffer.new result };

    // Moves bytes from the front of In to the front of the buffer, and answers how many, and how many still wait.
    fn read(&mut self, buffer: &mut [u8]) -> (usize, usize)
        ensures { Fetched (meaning self.old) (meaning self.new) buffer.old buffer.new result.0 result.1 };

    // Takes as many of the bytes as there is room for, joins them to the end of Out, and answers how many.
    fn write(&mut self, bytes: &[u8]) -> usize
        ensures { Written (meaning self.old) (meaning self.new) bytes.now result };

    // How many bytes more may be written, and whether it is clear to send: the pair that a port's interface has.
    fn room(&self) -> (usize, bool)
        ensures room { result.0 ≡ (meaning self.now).room_out }
        ensures clear { result.1 ≡ (meaning self.now).clear };

    // Says whether it is clear to send.
    fn clear(&mut self, value: bool)
        ensures { Cleared (meaning self.old) (meaning self.new) value };

    // Empties In and Out.
    fn hangup(&mut self)
        ensures { HungUp (meaning self.old) (meaning self.new) };
}
