// Reads a rehearsal from standard input and prints its report.
#![tactic(auto)]

use program::{ended, read_input};
use rehearsal::{MOST_INPUT, rehearse};
use std::process::ExitCode;

fn run(rt: &HostRuntime) -> anyhow::Result<()> {
    let input = read_input(rt.alloc(), rt.stdin(), MOST_INPUT)?;
    let report = rehearse(rt.alloc(), input.as_slice())?;
    print!(rt; "{report}")?;
    Ok(())
}

fn main(rt: HostRuntime) -> ExitCode {
    ended(&rt, "rehearse", run(&rt))
}
