// The next line that ends in what waits at a port.
ghost use Rattle.std.specs.Prelude.{◌≡◌};
ghost use Rattle.reader.specs.Unfinished.{part_of, Comes};

use crate::Unfinished;
use port::Port;

// Takes bytes one at a time, so that none beyond the line's end is taken, until a line that is not empty ends or nothing waits.
// True: the unfinished line has ended, and is held until it is cleared. A flag, since the line itself stays where it is held.
pub fn next_line<P: Port>(port: &mut P, unfinished: &mut Unfinished) -> bool
    ensures { Comes (P.Port.meaning port.old) (P.Port.meaning port.new) (part_of unfinished.old) (part_of unfinished.new) result }
{
    let mut one = [0u8; 1];
    loop {
        let (moved, waiting) = port.read(&mut one);
        if moved == 0 {
            return false;
        }
        if unfinished.take(one[0]) {
            return true;
        }
        if waiting == 0 {
            return false;
        }
    }
}
