// Certifies one edition of house 0 among four houses, by a register and the rule Rotating: prints a line for each step, and its bundle.
#![tactic(auto)]

mod steps;
mod stop;

use crate::steps::{certify, opened};
use crate::stop::Stop;
use edition::MOST_BYTES;
use program::{ended, read_input, refused};
use std::process::ExitCode;

fn run(rt: &HostRuntime) -> Result<(), Stop> {
    let pages = read_input(rt.alloc(), rt.stdin(), MOST_BYTES)?;
    let mut exchange = opened(rt.alloc())?;
    certify(rt, &mut exchange, pages.as_slice())
}

fn told(rt: &HostRuntime, outcome: Result<(), Stop>) -> anyhow::Result<()> {
    match outcome {
        Ok(()) => Ok(()),
        Err(Stop::Refused(refusal)) => refused(rt, refusal),
        Err(Stop::Failed(error)) => Err(error),
    }
}

fn main(rt: HostRuntime) -> ExitCode {
    ended(&rt, "certify", told(&rt, run(&rt)))
}
