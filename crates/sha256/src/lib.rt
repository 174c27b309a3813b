// SHA-256 of FIPS 180-4.
#![tactic(auto)]

ghost use Rattle.std.specs.Prelude.{◌≡◌};
ghost use Rattle.sha256.specs.Examples.{Examples};
ghost use Rattle.sha256.specs.Text.{digest_of};

mod block;
mod bytes;
mod constants;
mod functions;
mod hexadecimal;
mod message;
mod state;
mod tail;
mod value;

pub use hexadecimal::Hexadecimal;
use message::hash;
pub use state::State;
pub use value::Digest;

// The SHA-256 of some pages.
pub fn digest(pages: &[u8]) -> Digest
    ensures { result ≡ digest_of pages.now }
{
    hash(pages).digest()
}

// The definitions give the published digests of the empty message, of "abc" and of a message of two blocks.
#[tactic(auto, using(crate::proofs::Examples::examples))]
pub fn published_examples()
    ensures { Examples }
{}
