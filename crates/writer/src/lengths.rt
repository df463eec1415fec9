// How long the parts of a line are, and whether a line is short enough for its kind and its buffer.
ghost use Rattle.std.specs.Prelude.{◌≡◌, ◌+◌, length};
ghost use Rattle.escape.specs.Spelling.{spelling};
ghost use Rattle.writer.specs.Canonical.{body_text};
ghost use Rattle.writer.specs.Writing.{Measured, Fitted, behind_all};

use crate::spelled::spelled_len;
use line::{Fault, LINE_MAX};

// The slash, and the two digits of the check.
pub(crate) const CHECK_LEN: usize = 3;

// The sum of two lengths, unless it is past the longest line.
pub(crate) fn sum_within(n: usize, more: usize) -> Result<usize, Fault>
    ensures { Measured (n + more) result }
{
    match n.checked_add(more) {
        Some(len) if len <= LINE_MAX => Ok(len),
        _ => Err(Fault::TooLong),
    }
}

// The length of a field as it is spelled, unless that is past the longest line.
pub(crate) fn field_len(field: &[u8]) -> Result<usize, Fault>
    ensures { Measured (length (spelling field.now)) result }
{
    let mut n = 0;
    // not `sum`, which has to be shown not to overflow: a field may be of any length
    for b in field {
        n = sum_within(n, spelled_len(*b))?;
    }
    Ok(n)
}

// The length of the fields as they are spelled, each with its colon, unless that is past the longest line.
pub(crate) fn fields_len(fields: &[&[u8]]) -> Result<usize, Fault>
    ensures { Measured (length (body_text (behind_all fields.now))) result }
{
    let mut n = 0;
    for field in fields {
        n = sum_within(n, field_len(field)? + 1)?;
    }
    Ok(n)
}

// Whether a whole line of `len` bytes is short enough, and goes into a buffer of `room` bytes.
pub(crate) fn fits(len: usize, room: usize) -> Result<(), Fault>
    ensures { Fitted len room result }
{
    if len > LINE_MAX {
        return Err(Fault::TooLong);
    }
    if len > room {
        return Err(Fault::ShortBuffer);
    }
    Ok(())
}
