// The line that has ended goes out of the link, into the caller's buffer.
ghost use Rattle.std.specs.Prelude.{◌≡◌, ◌≤◌, length};
ghost use Rattle.reader.specs.Unfinished.{part_of};
ghost use Rattle.numbers.specs.Ten.{slots_of};
ghost use Rattle.link.specs.Steps.{HandedOut};

use crate::inner::Core;
use crate::pumped::Pumped;
use crate::telling::kind_of;

impl Core {
    pub(crate) fn hand_out(&mut self, buffer: &mut [u8]) -> Pumped
        requires { 1024 ≤ length buffer.old }
        ensures line { HandedOut (part_of self.old.unfinished) (part_of self.new.unfinished) (slots_of self.old.numbers) (slots_of self.new.numbers) buffer.old buffer.new result }
        ensures number { self.new.number ≡ self.old.number }
        ensures recent { self.new.numbers.recent ≡ self.old.numbers.recent }
    {
        let held = self.unfinished.held();
        let length = held.len();
        buffer[..length].copy_from_slice(held);
        let kind = kind_of(self.unfinished.whole(), &mut self.numbers);
        self.unfinished.clear();
        Pumped::Line { kind, length }
    }
}
