// What bench/ times beside plain Rust: many stamps under one prepared key, each of a statement that begins with the stamp before.
// The crate measure_c gives it to bench/ by name.
#![tactic(auto)]

ghost use Rattle.std.specs.Prelude.{◌≡◌};
ghost use Rattle.measure.specs.Chains.{chained, first, chain_memory};

use hmac::PreparedKey;
use seal::STATEMENT_BYTES;

// One stamp more.
#[tactic(auto, unfolding(crate::specs::Chains::chained))]
fn turn(key: &PreparedKey, mut statement: [u8; STATEMENT_BYTES]) -> [u8; STATEMENT_BYTES]
    ensures { result ≡ chained 1 key.now.block statement }
{
    let stamp = key.stamp(&statement).bytes();
    *statement.first_chunk_mut().unwrap() = stamp;
    statement
}

// The statement after so many stamps.
fn chain(key: &PreparedKey, turns: u32) -> [u8; STATEMENT_BYTES]
    ensures { result ≡ chained turns key.now.block first }
{
    (0..turns).fold(
        [0; STATEMENT_BYTES],
        |statement, _|
            ensures { result ≡ chained 1 key.entry.now.block statement }
        { turn(key, statement) },
    )
}

// Writes the statement after so many stamps to the front of the memory.
pub fn measure_stamps(key: &[u8], turns: u32, memory: &mut [u8])
    ensures { memory.new ≡ chain_memory key.now turns memory.old }
{
    if let Some(front) = memory.first_chunk_mut() {
        *front = chain(&PreparedKey::new(key), turns);
    }
}
