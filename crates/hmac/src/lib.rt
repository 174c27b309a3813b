// HMAC of FIPS 198-1 with SHA-256.
#![tactic(auto)]

ghost use Rattle.std.specs.Prelude.{◌≡◌};
ghost use Rattle.hmac.specs.Hmac.{hmac_of};
ghost use Rattle.hmac.specs.Examples.{Examples};

mod compare;
mod key;
mod prepared;

pub use prepared::PreparedKey;
use sha256::Digest;

// The HMAC of a message. For many messages under one key, prepare the key.
pub fn hmac(key: &[u8], message: &[u8]) -> Digest
    ensures { result ≡ hmac_of key.now message.now }
{
    PreparedKey::new(key).stamp(message)
}

// The definitions give the published values of three test cases of RFC 4231, one of them with a key longer than a block.
#[tactic(auto, using(crate::proofs::Examples::examples))]
pub fn published_examples()
    ensures { Examples }
{}
