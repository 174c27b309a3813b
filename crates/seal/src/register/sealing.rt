// Signing by the next row, and checking a row.
ghost use Rattle.std.specs.Prelude.{◌≡◌, ◌<◌, [], ◌∷◌, ◌++◌};
ghost use Rattle.seal.specs.Houses.{left_of, spent};
ghost use Rattle.seal.specs.Registers.{entries_of, used, row_at, register, row_checks};
ghost use Rattle.seal.specs.Rows.{row_size, entry, holds, row_bytes};
ghost use Rattle.seal.specs.RegisterLaws.{register_meant};

use crate::entry::Entry;
use crate::kind::Seal;
use crate::register::Register;
use crate::statement::Statement;
use refusal::Refusal;

impl Register {
    // The number of the next row, the most significant byte first.
    fn next_number(&self) -> [u8; 2]
        ensures { result ≡ row_bytes (used self.now) }
    {
        (self.used() as u16).to_be_bytes()
    }

    // Whether the house signed the statement in the row.
    #[tactic(auto, using(crate::proofs::Rows::row_is), unfolding(crate::specs::Rows::same_statement))]
    fn holds(&self, i: usize, house: u8, statement: Statement) -> bool
        ensures { result ≡ holds (row_at self.now i) house statement }
    {
        self.row(i) == Some(Entry { house, statement })
    }

    // Whether the seal is the number of a row that holds the house and the statement.
    fn row_checks(&self, house: u8, statement: Statement, seal: &[u8]) -> bool
        ensures { result ≡ row_checks self.now house statement seal.now }
    {
        match seal {
            [high, low] => {
                let number = u16::from_be_bytes([*high, *low]);
                self.holds(usize::from(number), house, statement)
            }
            _ => false,
        }
    }

    // Uses the next row for the house, which has a seal left.
    fn enter(&mut self, house: u8, statement: Statement)
        requires { 0 < left_of self.old.supply.houses self.old.supply.left house }
        ensures houses { self.new.supply.houses ≡ self.old.supply.houses }
        ensures entries { entries_of self.new ≡ entries_of self.old ++ (entry house statement ∷ []) }
        ensures left { self.new.supply.left ≡ spent self.old.supply.left house }
    {
        // There is room, so it does not fail.
        let _ = self.entries.push(Entry { house, statement });
        self.supply.spend(house);
    }
}

impl Seal for Register {
    const LEN: usize = 2;

    ghost LEN = { row_size };

    ghost meaning = { register };

    ghost meant = { register_meant };

    ghost sized = { λ _. row_size };

    // Handed on to the supply, as in the other kind: the trait cannot do it, since a kind need not have one.
    fn houses(&self) -> u8 {
        self.supply.houses()
    }

    fn check(&self, house: u8, statement: Statement, seal: &[u8]) -> bool {
        house < self.houses() && self.row_checks(house, statement, seal)
    }

    fn left(&self, house: u8) -> u32 {
        self.supply.left(house)
    }

    fn sign(&mut self, house: u8, statement: Statement, memory: &mut [u8]) -> Result<(), Refusal> {
        self.supply.ask(house, Self::LEN, memory.len())?;
        memory[..Self::LEN].copy_from_slice(&self.next_number());
        self.enter(house, statement);
        Ok(())
    }
}
