// A line written by a chain of a writer's calls, with tests of what is written and read.
#![tactic(auto)]

ghost use Rattle.std.specs.Prelude.{[], ◌∷◌, IfOk};
ghost use Rattle.line.specs.Forms.{command};
ghost use Rattle.writer.specs.Writing.{Closed, begun, with_field};

use line::{Fault, Side};
use writer::Writer;

// Writes a command of the device 01 with one field beside its name.
pub fn command_line(out: &mut [u8], mark: char, name: &[u8], field: &[u8]) -> Result<usize, Fault>
    ensures { IfOk result (λ n. Closed out.old (with_field (begun command (48 ∷ 49 ∷ []) mark name.now) field.now) out.new n) }
{
    let mut writer = Writer::over(out);
    writer.begin(Side::Command, b"01", mark, name)?;
    writer.add(field)?;
    Ok(writer.close())
}

#[cfg(test)]
mod tests;
