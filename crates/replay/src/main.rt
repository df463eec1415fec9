// Drives a link by a script: the first 65,536 bytes of standard input, a call to a line, and a row for each.
#![tactic(auto)]

use console::first_bytes;
use desk::{Desk, Told, first_line, is_silent, without_port};
use link::Link;
use port::{LineControl, Port};
use script::asked_by;
use serial::Serial;

// The most bytes of a script, and so the most that an arriving text means.
const SCRIPT_MAX: usize = 65536;

// The link number of the link that the script drives.
const LINK_NUMBER: u16 = 1;

// A row for each line that is not silent.
fn tell_all<P: Port>(rt: &HostRuntime, desk: &mut Desk<P>, script: &[u8]) -> anyhow::Result<()> {
    let mut buffer = vec![in rt.alloc(); 0; SCRIPT_MAX]?;
    let mut rest = script;
    // the script is taken apart line by line: an iterator over it would be a type more for this one loop
    while !rest.is_empty() {
        let (line, more) = first_line(rest);
        rest = more;
        if is_silent(line) {
            continue;
        }
        let row = desk.obey(asked_by(line), &mut buffer);
        rt.println(Told {
            row,
            buffer: &buffer,
        })?;
    }
    Ok(())
}

// Runs the script at a desk of its own. Whatever comes of it, the tickets that are left are settled at the end.
fn run_over<P: Port + Drop>(rt: &HostRuntime, port: P, script: &[u8]) -> anyhow::Result<()> {
    let mut desk = Desk::new(Link::new(port, LINK_NUMBER));
    let outcome = tell_all(rt, &mut desk, script);
    let _link = desk.close();
    outcome
}

fn run(rt: &HostRuntime) -> anyhow::Result<()> {
    let script = first_bytes(rt)?;
    match without_port(&script) {
        Some(rest) => {
            rt.println("PORT controlled")?;
            run_over(rt, LineControl::new(Serial::new()), rest)
        }
        None => run_over(rt, Serial::new(), &script),
    }
}

fn main(rt: HostRuntime) -> anyhow::Result<()> {
    run(&rt)
}
