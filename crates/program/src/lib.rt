// What the programs have in common: how they read their input, answer a refusal, and end.
#![tactic(auto)]

ghost use Rattle.std.specs.Prelude.{◌≡◌, ◌+◌, ◌^◌, ◌-◌, IfOk, IfSome, IsErr, MatchResult, min, take};
ghost use Rattle.std.specs.Process.{exit_status};

use refusal::Refused;
use std::alloc::Allocator;
use std::io;
use std::io::{Eprint, Print, Read};
use std::process::ExitCode;

// All of the input, or one byte more than the bound where it is longer: so it is seen to be, and no more is read.
pub fn read_input<A: Allocator, I: Read + Drop>(
    alloc: A,
    input: I,
    most: usize,
) -> io::Result<Vec<u8, A>>
    ensures { IfOk result (λ v. IfSome (I.remaining input) (λ bytes. v.items ≡ take (min (most + 1) (2 ^ 64 - 1)) bytes)) }
{
    let mut bytes = Vec::new(alloc);
    input
        .take((most as u64).saturating_add(1))
        .read_to_end(&mut bytes)?;
    Ok(bytes)
}

// A refusal is part of the answer, so it is printed as one; what is wrong is the error.
pub fn refused<P: Print>(rt: &P, refused: Refused) -> anyhow::Result<()>
    ensures { IsErr result }
{
    println!(rt; "{refused}")?;
    Err(refused.refusal.into())
}

// The status of a program that has ended, once its error is written.
pub fn ended<P: Eprint>(rt: &P, name: &str, outcome: anyhow::Result<()>) -> ExitCode
    ensures { MatchResult outcome (λ _. exit_status result ≡ 0) (λ _. exit_status result ≡ 1) }
{
    match outcome {
        Ok(()) => ExitCode::SUCCESS,
        Err(error) => {
            // Where even this cannot be written, the status alone tells.
            let _written = eprintln!(rt; "{name}: {error}");
            ExitCode::FAILURE
        }
    }
}

#[cfg(test)]
mod tests {
    use super::*;
    use std::test::Fail;

    #[test]
    fn one_byte_past_the_bound(rt: HostRuntime) -> Result<(), Fail> {
        let cut = read_input(rt.alloc(), &b"edition"[..], 3)?;
        assert_eq!(rt; cut.as_slice(), b"edit".as_slice());
        let whole = read_input(rt.alloc(), &b"edition"[..], 7)?;
        assert_eq!(rt; whole.as_slice(), b"edition".as_slice());
        Ok(())
    }
}
