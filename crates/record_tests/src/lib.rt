// Records written into whole lines, with tests of what is written and read.
#![tactic(auto)]

ghost use Rattle.std.specs.Prelude.{◌≡◌, IfOk, OnOk};
ghost use Rattle.line.specs.Forms.{answer};
ghost use Rattle.writer.specs.Writing.{Closed, begun, with_fields};
ghost use Rattle.record.specs.Records.{play_status};
ghost use Rattle.record.specs.Writes.{status_fields};

use line::{Fault, Side};
use record::PlayStatus;
use writer::Writer;

#[cfg(test)]
mod reading;
#[cfg(test)]
mod writing;

// Writes an answer that tells a play status: its line means just that record, whatever the address, mark and status.
pub fn status_line(
    out: &mut [u8],
    address: &[u8],
    mark: char,
    status: &[u8],
    play: &PlayStatus,
) -> Result<usize, Fault>
    ensures line { IfOk result (λ n. Closed out.old (with_fields (begun answer address.now mark status.now) (status_fields play.now)) out.new n) }
    ensures back { OnOk result (play_status (with_fields (begun answer address.now mark status.now) (status_fields play.now)) ≡ Ok play.now) }
{
    let mut writer = Writer::over(out);
    writer.begin(Side::Answer, address, mark, status)?;
    play.write(&mut writer)?;
    Ok(writer.close())
}
