// PLAY_STATUS: what the player plays, how, and where it is in title and chapter. Lengths and locations are in seconds.
ghost use Rattle.std.specs.Prelude.{◌≡◌, IfOk, Some};
ghost use Rattle.line.specs.Meanings.{message_of};
ghost use Rattle.record.specs.Records.{mode_in, speed_in, play_status};
ghost use Rattle.record.specs.Reads.{ReadBelow};
ghost use Rattle.record.specs.Writes.{wrong_status};
ghost use Rattle.record.specs.Shown.{position_text, status_text};

use crate::fields::Fields;
use crate::mode::PlayMode;
use line::{Fault, Message};
use std::fmt;

// The highest speed of a scan.
const SPEED_MAX: u32 = 3;

// Its fields are open to all, so a value that its digits cannot hold is refused only where it is written.
#[derive(Clone, Copy, PartialEq, Eq, Debug)]
pub struct PlayStatus {
    pub mode: PlayMode,
    pub speed: u8,
    pub title_number: u8,
    pub title_length: u32,
    pub title_location: u32,
    pub chapter_number: u16,
    pub chapter_length: u32,
    pub chapter_location: u32,
}

#[tactic(auto, unfolding(crate::specs::Records::mode_in, crate::specs::Records::number_in))]
fn mode_in(fields: &Fields) -> Result<PlayMode, Fault>
    ensures { result ≡ mode_in (message_of fields.now.message) }
{
    PlayMode::try_from(fields.number(1, 1)?).map_err(|_| Fault::RecordForm(1))
}

#[tactic(auto, unfolding(crate::specs::Records::speed_in, crate::specs::Records::number_in))]
fn speed_in(fields: &Fields) -> Result<u8, Fault>
    ensures value { result ≡ speed_in (message_of fields.now.message) }
    ensures small { ReadBelow 4 result }
{
    match fields.number(2, 1)? {
        n @ 0..=SPEED_MAX => Ok(n as u8), // nothing is lost below 4
        _ => Err(Fault::RecordForm(2)),
    }
}

impl PlayStatus {
    // The play status that a message tells.
    pub fn read(message: &Message) -> Result<PlayStatus, Fault>
        ensures told { result ≡ play_status (message_of message.now) }
        ensures fits { IfOk result (λ s. wrong_status s ≡ None) }
    {
        let fields = Fields { message: *message };
        fields.expect_kind(b"PLAY_STATUS", 8)?;
        // a cast here loses nothing, which is proved: two digits fit a byte, and three fit two bytes
        Ok(PlayStatus {
            mode: mode_in(&fields)?,
            speed: speed_in(&fields)?,
            title_number: fields.number(3, 2)? as u8,
            title_length: fields.number(4, 5)?,
            title_location: fields.number(5, 5)?,
            chapter_number: fields.number(6, 3)? as u16,
            chapter_length: fields.number(7, 5)?,
            chapter_location: fields.number(8, 5)?,
        })
    }
}

// Which title or chapter, where in it, and how long it is, in seconds.
#[derive(Clone, Copy)]
struct Position {
    number: u32,
    location: u32,
    length: u32,
}

impl fmt::Display for Position {
    ghost output = { λ p. Some (position_text p.number p.location p.length) };

    fn fmt<W: fmt::Write>(&self, f: &mut fmt::Formatter<W>) -> fmt::Result {
        let Position {
            number,
            location,
            length,
        } = *self;
        write!(f, "{number} at {location} of {length} s")
    }
}

// Mode and speed, then where in title and chapter the player is, in seconds.
impl fmt::Display for PlayStatus {
    ghost output = { λ status. Some (status_text status) };

    fn fmt<W: fmt::Write>(&self, f: &mut fmt::Formatter<W>) -> fmt::Result {
        let mode = self.mode;
        let speed = self.speed;
        let title = Position {
            number: u32::from(self.title_number),
            location: self.title_location,
            length: self.title_length,
        };
        let chapter = Position {
            number: u32::from(self.chapter_number),
            location: self.chapter_location,
            length: self.chapter_length,
        };
        write!(
            f,
            "{mode} at speed {speed}, title {title}, chapter {chapter}"
        )
    }
}
