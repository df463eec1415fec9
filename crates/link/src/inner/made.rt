// What a new link holds.
ghost use Rattle.std.specs.Prelude.{◌≡◌, ℕ};
ghost use Rattle.reader.specs.Cutting.{bare};
ghost use Rattle.reader.specs.Unfinished.{part_of};
ghost use Rattle.life.specs.Link.{is_free};
ghost use Rattle.numbers.specs.Ten.{slots_of};

use crate::inner::Core;
use numbers::Numbers;
use reader::Unfinished;

impl Core {
    pub fn new(number: u16) -> Core
        ensures link { result.number ≡ number }
        ensures unfinished { part_of result.unfinished ≡ bare }
        ensures slots { (n : ℕ) → slots_of result.numbers n ≡ is_free }
        ensures recent { result.numbers.recent ≡ 9 }
    {
        Core {
            number,
            unfinished: Unfinished::new(),
            numbers: Numbers::new(),
        }
    }
}
