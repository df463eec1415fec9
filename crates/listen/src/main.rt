// Tells a recording of a player's lines row by row: the first 65,536 bytes of standard input are played as a tape.
#![tactic(auto)]

use anyhow::anyhow;
use console::first_bytes;
use link::{Link, Pumped};
use tape::Tape;

// The most rows: each but the last is of a line, which has a byte and an end.
const ROWS_MAX: usize = 65536;

// A row for each line, until nothing is left.
fn tell(rt: &HostRuntime, mut link: Link<Tape>) -> anyhow::Result<()> {
    let mut buffer = [0; 1024];
    // a bound, as every loop has one; each turn changes the link, which a closure would hide
    for _ in 0..ROWS_MAX {
        let pumped = link
            .pump(&mut buffer)
            .map_err(|_| anyhow!("the buffer is too small for a line"))?;
        rt.println(pumped)?;
        if matches!(pumped, Pumped::Dry) {
            break;
        }
    }
    Ok(())
}

fn run(rt: &HostRuntime) -> anyhow::Result<()> {
    let tape = Tape::new(rt.alloc(), first_bytes(rt)?, 0)?;
    tell(rt, Link::new(tape, 0))
}

fn main(rt: HostRuntime) -> anyhow::Result<()> {
    run(&rt)
}
