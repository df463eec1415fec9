// One search, from the name typed to the count shown: the command is sent, a player's answer arrives in two pieces, and the
// count that the player tells is printed with what became of the ticket.
#![tactic(auto)]

use anyhow::anyhow;
use line::Fault;
use link::{Link, Pumped, message};
use numbers::{Outcome, number_of};
use port::Port;
use serial::Serial;
use std::fmt;

// What a player answers to the search: an overview that announces two lines, and these.
const FIRST_PIECE: &[u8] =
    b"01.01/0/000:BROWSE_RESULTS_OVERVIEW:7:Acts:2:9:/27\r01.01/0/000:BROWSE_RES";

const SECOND_PIECE: &[u8] = b"ULT:1:4:Alpha:/90\r01.01/0/000:BROWSE_RESULT:2:5:Beta:/86\r";

// The most lines that are taken of one answer.
const LINES_MAX: usize = 100;

// How many lines the listing's overview announces. The number is copied out of the buffer before the next pump fills it anew.
fn announced(link: &mut Link<Serial>, buffer: &mut [u8]) -> Option<u16> {
    let Ok(Pumped::Line { length, .. }) = link.pump(buffer) else {
        return None;
    };
    let overview = message(buffer, length)?;
    number_of(overview.raw_field(4)?)
}

// Takes what is left of the answer, and says how many lines it was.
// A loop, since each turn changes the link: a closure of an iterator would hide that.
fn lines_left(link: &mut Link<Serial>, buffer: &mut [u8]) -> usize {
    for lines in 0..LINES_MAX {
        let Ok(Pumped::Line { .. }) = link.pump(buffer) else {
            return lines;
        };
    }
    LINES_MAX
}

#[derive(Drop)]
struct Found {
    announced: Option<u16>,
    lines: usize,
    outcome: Outcome,
}

impl fmt::Display for Found {
    fn fmt<W: fmt::Write>(&self, f: &mut fmt::Formatter<W>) -> fmt::Result {
        match self.announced {
            Some(count) => write!(f, "{count} announced, ")?,
            None => f.write_str("nothing announced, ")?,
        }
        let lines = self.lines;
        write!(f, "{lines} came, ")?;
        match self.outcome {
            Outcome::Answered => f.write_str("answered"),
            Outcome::GivenUp => f.write_str("given up"),
            Outcome::Lost => f.write_str("lost"),
            Outcome::Foreign => f.write_str("foreign"),
        }
    }
}

// The ticket is spent on every way out, answered or not.
fn search(link: &mut Link<Serial>) -> Result<Found, Fault> {
    let ticket = link.submit(b"01.01", b"BROWSE:Al:")?;
    let mut buffer = [0; 1024];
    let _ = link.arrive(FIRST_PIECE);
    let announced = announced(link, &mut buffer);
    let _ = link.arrive(SECOND_PIECE);
    let lines = lines_left(link, &mut buffer);
    let outcome = link.settle(ticket);
    Ok(Found {
        announced,
        lines,
        outcome,
    })
}

fn run(rt: &HostRuntime) -> anyhow::Result<()> {
    let mut link = Link::new(Serial::new(), 1);
    let found = search(&mut link).map_err(|_| anyhow!("the search was refused"))?;
    rt.println(found)?;
    Ok(())
}

fn main(rt: HostRuntime) -> anyhow::Result<()> {
    run(&rt)
}
