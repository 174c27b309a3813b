// Whole messages: the blocks where they lie, then the padded end.
ghost use Rattle.std.specs.Prelude.{◌≡◌, ◌+◌, ◌*◌, ◌^◌, fold};
ghost use Rattle.sha256.specs.Constants.{initial};
ghost use Rattle.sha256.specs.Compression.{compressed};
ghost use Rattle.sha256.specs.Hash.{resumed, sha256, paired};

use crate::block::compress;
use crate::state::State;
use crate::tail::end;
use crate::value::Digest;

// Hashes some blocks.
fn absorb(start: State, blocks: &[[u8; 64]]) -> State
    ensures { result ≡ fold compressed start blocks.now }
{
    blocks.iter().fold(start, State::after)
}

// Hashes the rest of a message of which `before` blocks are hashed already, into `start`.
fn resume(start: State, before: u64, rest: &[u8]) -> State
    ensures { result ≡ resumed start before rest.now }
{
    let (blocks, last) = rest.as_chunks::<64>();
    let s = absorb(start, blocks);
    let bits = before
        .wrapping_mul(512)
        .wrapping_add((rest.len() as u64).wrapping_mul(8));
    end(s, last, bits)
}

// Hashes a whole message.
#[tactic(auto, using(crate::proofs::Hash::sha256_resumed))]
pub(crate) fn hash(pages: &[u8]) -> State
    ensures { result ≡ sha256 pages.now }
{
    resume(State::initial(), 0, pages)
}

fn pair(high: u32, low: u32) -> u64
    ensures { result ≡ high * 2 ^ 32 + low }
{
    (u64::from(high) << 32) | u64::from(low)
}

impl State {
    // The hash value before the first block.
    pub fn initial() -> State
        ensures { result ≡ initial }
    {
        State {
            a: 0x6a09_e667,
            b: 0xbb67_ae85,
            c: 0x3c6e_f372,
            d: 0xa54f_f53a,
            e: 0x510e_527f,
            f: 0x9b05_688c,
            g: 0x1f83_d9ab,
            h: 0x5be0_cd19,
        }
    }

    // The hash value after one block more.
    pub fn after(self, block: &[u8; 64]) -> State
        ensures { result ≡ compressed self block.now }
    {
        compress(self, block)
    }

    // The words in pairs.
    pub(crate) fn digest(self) -> Digest
        ensures { result ≡ record { words = paired self } }
    {
        Digest {
            words: [
                pair(self.a, self.b),
                pair(self.c, self.d),
                pair(self.e, self.f),
                pair(self.g, self.h),
            ],
        }
    }

    // The digest of a message of which `before` blocks are hashed already, into `self`, and `rest` is left.
    pub fn finish(self, before: u64, rest: &[u8]) -> Digest
        ensures { result ≡ record { words = paired (resumed self before rest.now) } }
    {
        resume(self, before, rest).digest()
    }
}
