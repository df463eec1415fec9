// What comes next in the answer to a command: the rules of overviews and result lines.
ghost use Rattle.std.specs.Prelude.{◌≡◌, ◌<◌};
ghost use Rattle.std.specs.List.{slice_get};
ghost use Rattle.line.specs.Meanings.{message_of};
ghost use Rattle.life.specs.Answers.{next};
ghost use Rattle.line.specs.Fields.{is_text};
ghost use Rattle.numbers.specs.Browse.{is_browse, number_in, okay as is_okay, name_in, overview as overview_in, result as result_in};
ghost use Rattle.numbers.specs.Ours.{ours};
ghost use Rattle.numbers.specs.Meanings.{place_of, step_of, first_step as step_at_start, result_step as step_within};

use line::{Message, Side};
use numeral::field_count;

// How far a listing is: its overview said `total` result lines, and `done` of them came.
#[derive(Clone, Copy, PartialEq, Eq, Debug)]
pub struct Listing {
    pub done: u16,
    pub total: u16,
}

// What a line is at its place in an answer.
#[derive(Clone, Copy, PartialEq, Eq, Debug)]
pub enum Step {
    NotNext,
    Final,
    // the listing after it
    Onward(Listing),
}

fn okay(message: &Message<'_>) -> bool
    ensures { result ≡ is_okay (message_of message.now) }
{
    message.field_is(0, b"000")
}

// Whether the message is a command named BROWSE.
pub fn is_browse(message: &Message<'_>) -> bool
    ensures { result ≡ is_browse (message_of message.now) }
{
    message.side() == Side::Command && message.field_is(0, b"BROWSE")
}

// The number that a field behind the first is.
fn number_at(message: &Message<'_>, index: usize) -> Option<u16>
    requires { 0 < index }
    ensures { result ≡ number_in (slice_get (message_of message.now).fields index) }
{
    field_count(message.raw_field(index)?)
}

// Whether the message has this name, and at least three fields behind it.
fn is_named(message: &Message<'_>, name: &[u8]) -> bool
    ensures { result ≡ is_text name.now (name_in (message_of message.now).fields) }
{
    message.raw_field(4).is_some() && message.field_is(1, name)
}

// Of an overview, how many result lines follow it.
pub fn overview(message: &Message<'_>) -> Option<u16>
    ensures { result ≡ overview_in (message_of message.now) }
{
    if is_named(message, b"BROWSE_RESULTS_OVERVIEW") {
        number_at(message, 4)
    } else {
        None
    }
}

// Of a result line, which one it is, from 1.
pub fn result(message: &Message<'_>) -> Option<u16>
    ensures { result ≡ result_in (message_of message.now) }
{
    if !is_named(message, b"BROWSE_RESULT") {
        return None;
    }
    number_at(message, 3)?;
    number_at(message, 2)
}

// The step of the first line of a listing.
fn first_step(message: &Message<'_>) -> Step
    ensures { step_of result ≡ step_at_start (message_of message.now) }
{
    if !okay(message) {
        return Step::Final;
    }
    match overview(message) {
        None => Step::NotNext,
        Some(0) => Step::Final,
        Some(total) => Step::Onward(Listing { done: 0, total }),
    }
}

impl Listing {
    // The step of the line after those that came.
    fn step(self, message: &Message<'_>) -> Step
        ensures { step_of result ≡ step_within self.done self.total (message_of message.now) }
    {
        let Listing { done, total } = self;
        if !okay(message) {
            return Step::NotNext;
        }
        match result(message) {
            Some(count) if count.checked_sub(1) == Some(done) => {
                if count == total {
                    Step::Final
                } else {
                    Step::Onward(Listing { done: count, total })
                }
            }
            _ => Step::NotNext,
        }
    }
}

// What the message is in the answer to BROWSE or to another command: the first line of it, or one within a listing.
pub fn next_step(listing: Option<Listing>, browse: bool, message: &Message<'_>) -> Step
    ensures { step_of result ≡ next ours browse (place_of listing) (message_of message.now) }
{
    if !browse {
        return Step::Final;
    }
    match listing {
        None => first_step(message),
        Some(listing) => listing.step(message),
    }
}
