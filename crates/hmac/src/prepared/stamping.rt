// Preparing a key, stamping with it and checking stamps.
ghost use Rattle.std.specs.Prelude.{◌≡◌, Decides};
ghost use Rattle.sha256.specs.Text.{digest_bytes};
ghost use Rattle.hmac.specs.Key.{key_block};
ghost use Rattle.hmac.specs.Hmac.{hmac_of_block};

use crate::compare::same_bytes;
use crate::key::{block_of, mask};
use crate::prepared::PreparedKey;
use sha256::{Digest, State};

// The byte that ipad repeats.
const INNER_PAD: u8 = 0x36;
// The byte that opad repeats.
const OUTER_PAD: u8 = 0x5c;

impl PreparedKey {
    // Takes a key of any length.
    pub fn new(key: &[u8]) -> PreparedKey
        ensures { result.block ≡ key_block key.now }
    {
        let block = block_of(key);
        PreparedKey {
            block,
            inner: State::initial().after(&mask(&block, INNER_PAD)),
            outer: State::initial().after(&mask(&block, OUTER_PAD)),
        }
    }

    // The HMAC of a message.
    #[tactic(auto, using(crate::proofs::Stamps::stamped))]
    pub fn stamp(&self, message: &[u8]) -> Digest
        ensures { result ≡ hmac_of_block self.now.block message.now }
    {
        let inside = self.inner.finish(1, message);
        self.outer.finish(1, &inside.bytes())
    }

    // Whether `stamp` is the message's: its 32 bytes, all of which are compared.
    pub fn checks(&self, message: &[u8], stamp: &[u8]) -> bool
        ensures { Decides result (stamp.now ≡ digest_bytes (hmac_of_block self.now.block message.now)) }
    {
        let right = self.stamp(message).bytes();
        stamp.len() == right.len() && same_bytes(stamp, &right)
    }
}
