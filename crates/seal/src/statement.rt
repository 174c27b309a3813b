// What a house signs: which rule, whose edition, its number, and the digest of its pages.
ghost use Rattle.std.specs.Prelude.{◌≡◌};
ghost use Rattle.seal.specs.Statements.{statement_bytes};

use edition::Number;
use sha256::Digest;

// How many bytes a statement has: the one place that names it.
pub const STATEMENT_BYTES: usize = 36;

// Flat, and with no Notice in it: definitions, laws and the bytes that are sealed name the four parts one by one.
#[derive(Clone, Copy, PartialEq)]
pub struct Statement {
    // The mark of the witness rule: a byte and no enum, since a statement may name a rule that is not there.
    pub mark: u8,
    // The house whose edition it is.
    pub house: u8,
    pub number: Number,
    pub digest: Digest,
}

impl Statement {
    // The bytes that are sealed: the four parts, one after the other.
    #[tactic(auto, unfolding(crate::specs::Statements::laid_out, sha256::specs::Text::bytes32))]
    pub fn bytes(self) -> [u8; STATEMENT_BYTES]
        ensures { result ≡ statement_bytes self }
    {
        let mut bytes = [0; STATEMENT_BYTES];
        bytes[0] = self.mark;
        bytes[1] = self.house;
        bytes[2..4].copy_from_slice(&self.number.to_be_bytes());
        bytes[4..].copy_from_slice(&self.digest.bytes());
        bytes
    }
}
