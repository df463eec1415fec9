// The play mode of a player: a digit, of which some have no meaning.
ghost use Rattle.std.specs.Prelude.{◌≡◌, Some};
ghost use Rattle.record.specs.Records.{mode_read};
ghost use Rattle.record.specs.Writes.{mode_number};
ghost use Rattle.record.specs.Shown.{mode_name, unknown_text};

use std::error::Error;
use std::fmt;

#[derive(Clone, Copy, PartialEq, Eq, Debug)]
pub enum PlayMode {
    NothingPlaying,
    Paused,
    Playing,
    ForwardScan,
    ReverseScan,
}

// A number that no play mode has.
#[derive(Clone, Copy, PartialEq, Eq, Debug)]
pub struct UnknownMode(pub u32);

impl TryFrom<u32> for PlayMode {
    type Error = UnknownMode;

    ghost try_from_gives = { λ n r. r ≡ mode_read n };

    fn try_from(n: u32) -> Result<Self, UnknownMode> {
        match n {
            0 => Ok(PlayMode::NothingPlaying),
            1 => Ok(PlayMode::Paused),
            2 => Ok(PlayMode::Playing),
            4 => Ok(PlayMode::ForwardScan),
            6 => Ok(PlayMode::ReverseScan),
            _ => Err(UnknownMode(n)),
        }
    }
}

impl fmt::Display for UnknownMode {
    ghost output = { λ unknown. Some (unknown_text unknown) };

    fn fmt<W: fmt::Write>(&self, f: &mut fmt::Formatter<W>) -> fmt::Result {
        write!(f, "no play mode has the number {}", self.0)
    }
}

impl Error for UnknownMode {}

impl From<PlayMode> for u32 {
    ghost from_gives = { λ mode n. n ≡ mode_number mode };

    fn from(mode: PlayMode) -> u32 {
        match mode {
            PlayMode::NothingPlaying => 0,
            PlayMode::Paused => 1,
            PlayMode::Playing => 2,
            PlayMode::ForwardScan => 4,
            PlayMode::ReverseScan => 6,
        }
    }
}

impl fmt::Display for PlayMode {
    ghost output = { λ mode. Some (mode_name mode) };

    fn fmt<W: fmt::Write>(&self, f: &mut fmt::Formatter<W>) -> fmt::Result {
        f.write_str(match self {
            PlayMode::NothingPlaying => "nothing playing",
            PlayMode::Paused => "paused",
            PlayMode::Playing => "playing",
            PlayMode::ForwardScan => "scanning forward",
            PlayMode::ReverseScan => "scanning back",
        })
    }
}
