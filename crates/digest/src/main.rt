// Reads an edition's pages from standard input and prints their report.
#![tactic(auto)]

use edition::{MOST_BYTES, report_on};
use program::{ended, read_input, refused};
use std::process::ExitCode;

fn run(rt: &HostRuntime) -> anyhow::Result<()> {
    let pages = read_input(rt.alloc(), rt.stdin(), MOST_BYTES)?;
    match report_on(pages.as_slice()) {
        Ok(report) => println!(rt; "{report}")?,
        Err(refusal) => refused(rt, refusal)?,
    }
    Ok(())
}

fn main(rt: HostRuntime) -> ExitCode {
    ended(&rt, "digest", run(&rt))
}
