// The end of a message: its bytes after the last whole block, padded, in a buffer of two blocks.
ghost use Rattle.std.specs.Prelude.{◌≡◌, ◌+◌, ◌<◌, ◌≤◌, ◌++◌, length, take};
ghost use Rattle.sha256.specs.Padding.{padding, zeros};
ghost use Rattle.sha256.specs.Hash.{folded};

use crate::block::compress;
use crate::state::State;

// Where the length stands in a block.
const ROOM: usize = 56;

// The padded end, in fixed memory: in the first block where `rest` leaves room for the length, else in both.
fn pad(rest: &[u8], bits: u64) -> [u8; 128]
    requires { length rest.now < 64 }
    ensures one { length rest.now < 56 → take 64 result ≡ rest.now ++ padding (zeros (length rest.now)) bits }
    ensures two { 56 ≤ length rest.now → take 128 result ≡ rest.now ++ padding (zeros (length rest.now)) bits }
{
    let length_at = if rest.len() < ROOM { ROOM } else { ROOM + 64 };
    let mut tail = [0; 128];
    tail[..rest.len()].copy_from_slice(rest);
    tail[rest.len()] = 0x80;
    tail[length_at..length_at + 8].copy_from_slice(&bits.to_be_bytes());
    tail
}

// Hashes the end of a message.
pub(crate) fn end(s: State, rest: &[u8], bits: u64) -> State
    requires { length rest.now < 64 }
    ensures { result ≡ folded s (rest.now ++ padding (zeros (length rest.now)) bits) }
{
    let tail = pad(rest, bits);
    let (blocks, _) = tail.as_chunks::<64>();
    let first = compress(s, &blocks[0]);
    if rest.len() < ROOM {
        first
    } else {
        compress(first, &blocks[1])
    }
}
