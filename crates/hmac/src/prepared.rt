// A key that is ready for stamping.
ghost use Rattle.std.specs.Prelude.{◌≡◌};
ghost use Rattle.sha256.specs.Constants.{initial};
ghost use Rattle.sha256.specs.Compression.{compressed};
ghost use Rattle.hmac.specs.Key.{ipad, opad, masked};

use sha256::State;

mod stamping;

// The block of a key and the hash values after it under each pad, so that a stamp does not hash the key again: of a short message it costs two compressions.
#[derive(Clone, Copy)]
pub struct PreparedKey {
    block: [u8; 64],
    inner: State,
    outer: State,
    ghost inside: { inner ≡ compressed initial (masked ipad block) },
    ghost outside: { outer ≡ compressed initial (masked opad block) },
}
