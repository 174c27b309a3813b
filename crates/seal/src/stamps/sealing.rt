// Stamping and checking stamps.
ghost use Rattle.std.specs.Prelude.{◌≡◌, ◌<◌};
ghost use Rattle.std.specs.Str.{bytes_eq};
ghost use Rattle.seal.specs.StampKinds.{stamp_size, stamp_of, stamps};
ghost use Rattle.seal.specs.StampLaws.{stamps_meant};

use crate::kind::Seal;
use crate::stamps::Stamps;
use crate::statement::Statement;
use refusal::Refusal;

impl Stamps {
    // The house's stamp on the statement.
    #[tactic(auto, using(crate::proofs::Keys::block_at))]
    fn stamp(&self, house: u8, statement: Statement) -> [u8; 32]
        requires { house < self.now.supply.houses }
        ensures { result ≡ stamp_of self.now.keys house statement }
    {
        let key = &self.keys[usize::from(house)];
        key.stamp(&statement.bytes()).bytes()
    }

    // Whether the seal is that stamp.
    fn stamped(&self, house: u8, statement: Statement, seal: &[u8]) -> bool
        requires { house < self.now.supply.houses }
        ensures { result ≡ bytes_eq seal.now (stamp_of self.now.keys house statement) }
    {
        self.keys[usize::from(house)].checks(&statement.bytes(), seal)
    }
}

impl Seal for Stamps {
    const LEN: usize = 32;

    ghost LEN = { stamp_size };

    ghost meaning = { stamps };

    ghost meant = { stamps_meant };

    ghost sized = { λ _. stamp_size };

    fn houses(&self) -> u8 {
        self.supply.houses()
    }

    fn check(&self, house: u8, statement: Statement, seal: &[u8]) -> bool {
        house < self.houses() && self.stamped(house, statement, seal)
    }

    fn left(&self, house: u8) -> u32 {
        self.supply.left(house)
    }

    fn sign(&mut self, house: u8, statement: Statement, memory: &mut [u8]) -> Result<(), Refusal> {
        self.supply.ask(house, Self::LEN, memory.len())?;
        memory[..Self::LEN].copy_from_slice(&self.stamp(house, statement));
        self.supply.spend(house);
        Ok(())
    }
}
