// A layer over any port that lets bytes depart only while it is clear to send.
ghost use Rattle.std.specs.Prelude.{◌≡◌};
ghost use Rattle.port.specs.Port.{heeding};
ghost use Rattle.port.specs.Runs.{Keeps};

use crate::Port;

#[derive(Drop)]
pub struct LineControl<P> {
    below: P,
}

impl<P: Port> LineControl<P> {
    pub fn new(below: P) -> LineControl<P>
        ensures below { result.below ≡ below }
        ensures meaning { heeding (P.Port.meaning result.below) ≡ heeding (P.Port.meaning below) }
        ensures keeps { Keeps (heeding (P.Port.meaning result.below)) }
    {
        LineControl { below }
    }
}

impl<P: Port> Port for LineControl<P> {
    ghost meaning = { λ s. heeding (P.Port.meaning s.below) };

    fn arrive(&mut self, bytes: &[u8]) -> usize {
        self.below.arrive(bytes)
    }

    fn depart(&mut self, buffer: &mut [u8]) -> usize {
        let (_, clear) = self.room();
        if clear { self.below.depart(buffer) } else { 0 }
    }

    fn read(&mut self, buffer: &mut [u8]) -> (usize, usize) {
        self.below.read(buffer)
    }

    fn write(&mut self, bytes: &[u8]) -> usize {
        self.below.write(bytes)
    }

    fn room(&self) -> (usize, bool) {
        self.below.room()
    }

    fn clear(&mut self, value: bool) {
        self.below.clear(value);
    }

    fn hangup(&mut self) {
        self.below.hangup();
    }
}
