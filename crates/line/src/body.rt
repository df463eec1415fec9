// The body of a line: fields, each ended by a colon outside an escape, of which the first has a form of its own.
ghost use Rattle.std.specs.Prelude.{◌≡◌, is_some};
ghost use Rattle.line.specs.Forms.{name_byte, is_status, is_name, is_first_field};
ghost use Rattle.std.specs.List.{list_all};
ghost use Rattle.escape.specs.Tokens.{parts};
ghost use Rattle.line.specs.Lines.{all_ended, fields_of};
ghost use Rattle.line.specs.Meanings.{side_of};
ghost use Rattle.line.specs.Reads.{behind, first_of};

use crate::message::Side;
use escape::cut;

// A name has at most so many bytes behind its first.
const LATER_MAX: usize = 63;

fn is_name_byte(b: u8) -> bool
    ensures { result ≡ name_byte b }
{
    matches!(b, b'A'..=b'Z' | b'0'..=b'9' | b'_')
}

fn all_name_bytes(s: &[u8]) -> bool
    ensures { result ≡ list_all name_byte s.now }
{
    s.iter().all(|b| is_name_byte(*b))
}

// A status is three digits.
fn is_status(field: &[u8]) -> bool
    ensures { result ≡ is_status field.now }
{
    matches!(field, [b'0'..=b'9', b'0'..=b'9', b'0'..=b'9'])
}

// A name is 1 to 64 capitals, digits and underscores, of which the first is a letter.
fn is_name(field: &[u8]) -> bool
    ensures { result ≡ is_name field.now }
{
    match field {
        [b'A'..=b'Z', later @ ..] => later.len() <= LATER_MAX && all_name_bytes(later),
        _ => false,
    }
}

// Whether the field may be the first of a body.
pub fn is_first_field(side: Side, field: &[u8]) -> bool
    ensures { result ≡ is_first_field (side_of side) field.now }
{
    match side {
        Side::Command => is_name(field),
        Side::Answer => is_status(field),
    }
}

// Whether a colon outside an escape ends each field, of which there may be none.
fn all_ended(fields: &[u8]) -> bool
    ensures { result ≡ is_some (all_ended (parts 58 fields.now)) }
{
    let mut rest = fields;
    // no index is counted: an iterator of fields would give no word of what is left behind the last
    loop {
        match cut(rest, b':') {
            Some((_, after)) => rest = after,
            None => return rest.is_empty(),
        }
    }
}

// The first field of a body, if a colon outside an escape ends it and each that follows.
pub(crate) fn first_field(body: &[u8]) -> Option<&[u8]>
    ensures { behind result ≡ first_of (fields_of body.now) }
{
    let (first, later) = cut(body, b':')?;
    all_ended(later).then_some(first)
}
