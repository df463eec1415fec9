// The worked lines of the protocol, in one statement that the checker computes.
#![tactic(auto)]

ghost use Rattle.worked.specs.Examples.{Worked};

// Every worked line means what it should.
pub fn worked_lines() -> u8
    ensures { Worked }
{
    0
}
