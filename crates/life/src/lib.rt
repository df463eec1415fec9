// What is promised of a link for its whole life, and the proof that every history keeps it. There is no code here:
// each function stands for the theorem in its contract.
#![tactic(auto)]

ghost use Rattle.life.specs.Kept.{Kept, NoLonger};
ghost use Rattle.life.specs.Possible.{Possible};

// Every history that leads from the making of a link to a state keeps the promises.
pub fn promises_are_kept()
    ensures { Kept }
{}

// What they suppose can be met.
pub fn promises_can_be_met()
    ensures { Possible }
{}

// No whole answer is a beginning of a longer one.
pub fn answers_end_once()
    ensures { NoLonger }
{}
