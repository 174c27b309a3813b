// What every seal kind has in common.
ghost use Rattle.std.specs.Prelude.{◌≡◌, ℕ, length};
ghost use Rattle.seal.specs.Meanings.{Meaning, Meant, sign_answer, Signing};

use crate::statement::Statement;
use refusal::Refusal;

// The signer and what is signed stay two parameters: a struct would be made at each call only to be taken apart.
pub trait Seal {
    ghost LEN: { ℕ };

    ghost meaning: { Meaning Self };

    // How many bytes a seal has.
    const LEN: usize;

    fn houses(&self) -> u8
        ensures { result ≡ meaning.houses self.now };

    // Whether a seal is the house's on the statement.
    fn check(&self, house: u8, statement: Statement, seal: &[u8]) -> bool
        ensures { result ≡ meaning.checks self.now house statement seal.now };

    // How many seals the house can still make.
    fn left(&self, house: u8) -> u32
        ensures { result ≡ meaning.left self.now house };

    // Writes the house's seal on the statement to the front of the memory.
    fn sign(&mut self, house: u8, statement: Statement, memory: &mut [u8]) -> Result<(), Refusal>
        ensures answer { result ≡ sign_answer meaning self.old house (length memory.old) }
        ensures leaves { Signing meaning result house statement self.old memory.old self.new memory.new };

    ghost meant: { Meant meaning };

    ghost sized: { meaning.size ≡ LEN };
}
