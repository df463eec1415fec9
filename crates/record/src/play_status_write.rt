// Writing a play status behind the status of an answer.
ghost use Rattle.std.specs.Prelude.{◌≡◌, if◌then◌else◌, OnOk, nat_le};
ghost use Rattle.writer.specs.Writing.{refusal};
ghost use Rattle.record.specs.Writes.{status_fields, wrong_status, unless_wrong, Written, StatusBack};

use crate::play_status::PlayStatus;
use line::Fault;
use numeral::digits;
use writer::Writer;

// Refuses a value above the most that its field can hold.
fn at_most(most: u32, value: u32, place: usize) -> Result<(), Fault>
    ensures { refusal result ≡ unless_wrong (if nat_le value most then None else Some place) None }
{
    if value <= most {
        Ok(())
    } else {
        Err(Fault::RecordForm(place))
    }
}

impl PlayStatus {
    // Refuses the first field whose value its digits cannot hold.
    fn check_fields(&self) -> Result<(), Fault>
        ensures { refusal result ≡ unless_wrong (wrong_status self.now) None }
    {
        at_most(3, u32::from(self.speed), 2)?;
        at_most(99, u32::from(self.title_number), 3)?;
        at_most(99999, self.title_length, 4)?;
        at_most(99999, self.title_location, 5)?;
        at_most(999, u32::from(self.chapter_number), 6)?;
        at_most(99999, self.chapter_length, 7)?;
        at_most(99999, self.chapter_location, 8)
    }

    // Writes the record behind the status of an answer.
    pub fn write(&self, writer: &mut Writer) -> Result<(), Fault>
        ensures written { Written (wrong_status self.now) (status_fields self.now) writer.old writer.new result }
        ensures back { OnOk result (StatusBack self.now) }
    {
        if !writer.is_bare() {
            return Err(Fault::RecordForm(0));
        }
        self.check_fields()?;
        writer.add_all(&[
            b"PLAY_STATUS",
            &digits::<1>(u32::from(self.mode)),
            &digits::<1>(u32::from(self.speed)),
            &digits::<2>(u32::from(self.title_number)),
            &digits::<5>(self.title_length),
            &digits::<5>(self.title_location),
            &digits::<3>(u32::from(self.chapter_number)),
            &digits::<5>(self.chapter_length),
            &digits::<5>(self.chapter_location),
        ])
    }
}
