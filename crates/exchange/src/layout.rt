// Where things stand in a bundle.
ghost use Rattle.std.specs.Prelude.{◌≡◌, ◌+◌, ◌≤◌, length};
ghost use Rattle.std.proofs.Math.Seq.{paste};
ghost use Rattle.exchange.specs.Layout.{head_length, head_bytes, receipt_at, receipt_bytes};

use seal::{STATEMENT_BYTES, Statement};

// The statement and the count.
pub const HEAD_BYTES: usize = STATEMENT_BYTES + 1;

// Where the receipt at a place stands, places counted from 0. The bound on sizes is no type: kinds answer theirs as a usize.
pub(crate) fn receipt_at(size: usize, place: u16) -> usize
    requires { size ≤ 2048 }
    ensures { result ≡ receipt_at size place }
{
    HEAD_BYTES + usize::from(place) * (1 + size)
}

// Writes a house and its seal from a place on: two lines, which a split of the memory would not make plainer.
pub(crate) fn write_receipt(memory: &mut [u8], at: usize, house: u8, seal: &[u8])
    requires { at + (1 + length seal.now) ≤ length memory.old }
    ensures { memory.new ≡ paste memory.old at (receipt_bytes house seal.now) (1 + length seal.now) }
{
    memory[at] = house;
    memory[at + 1..at + 1 + seal.len()].copy_from_slice(seal);
}

// Writes a statement and a count to the front.
pub(crate) fn write_head(memory: &mut [u8], statement: Statement, count: u8)
    requires { head_length ≤ length memory.old }
    ensures { memory.new ≡ paste memory.old 0 (head_bytes statement count) head_length }
{
    memory[0..STATEMENT_BYTES].copy_from_slice(&statement.bytes());
    memory[STATEMENT_BYTES] = count;
}
