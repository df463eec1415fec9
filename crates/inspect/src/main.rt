// Tells what lines mean: a row for each line in the first 65,536 bytes of standard input.
#![tactic(auto)]

mod lines;
mod row;

use console::first_bytes;
use line::LINE_MAX;
use lines::next_line;
use row::row_of;

// A row for each line that is not empty.
fn tell(rt: &HostRuntime, bytes: &[u8]) -> anyhow::Result<()> {
    let mut rest = bytes;
    while let Some((line, more)) = next_line(rest) {
        rest = more;
        if line.is_empty() {
            continue;
        }
        let mut buffer = [0; LINE_MAX];
        rt.println(row_of(line, &mut buffer))?;
    }
    Ok(())
}

fn run(rt: &HostRuntime) -> anyhow::Result<()> {
    let bytes = first_bytes(rt)?;
    tell(rt, &bytes)
}

fn main(rt: HostRuntime) -> anyhow::Result<()> {
    run(&rt)
}
