// The key as a block of the hash, and the block under a pad.
ghost use Rattle.std.specs.Prelude.{◌≡◌, ◌≤◌, length};
ghost use Rattle.hmac.specs.Key.{extended, key_block, masked};

use sha256::digest;

// The size of SHA-256's blocks in bytes.
const BLOCK: usize = 64;

// A key that fits a block, with zeros after it.
fn extend(key: &[u8]) -> [u8; 64]
    requires { length key.now ≤ 64 }
    ensures { result ≡ extended key.now }
{
    let mut block = [0; 64];
    block[..key.len()].copy_from_slice(key);
    block
}

// The block of a key of any length: the key, or its digest where it is longer than a block, with zeros after it.
#[tactic(auto, unfolding(crate::specs::Key::key_block))]
pub(crate) fn block_of(key: &[u8]) -> [u8; 64]
    ensures { result ≡ key_block key.now }
{
    if key.len() > BLOCK {
        extend(&digest(key).bytes())
    } else {
        extend(key)
    }
}

// Each byte of the block xor the byte that a pad repeats. Done in place: by the array's `map` a stamp is checked a fifth slower.
pub(crate) fn mask(block: &[u8; 64], pad: u8) -> [u8; 64]
    ensures { result ≡ masked pad block.now }
{
    let mut out = *block;
    for b in &mut out {
        *b ^= pad;
    }
    out
}
