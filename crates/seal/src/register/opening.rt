// Making a register from its table.
ghost use Rattle.std.specs.Prelude.{◌≡◌, ◌/◌, ◌≤◌, vec_capacity, sum, IfOk};
ghost use Rattle.refusal.specs.Questions.{after};
ghost use Rattle.seal.specs.Openings.{Opens, Shared};
ghost use Rattle.seal.specs.Registers.{register_asked, Begun};
ghost use Rattle.seal.specs.Rows.{most_rows};

use crate::houses::{Supply, houses_fit};
use crate::register::Register;
use crate::table::Table;
use refusal::Refusal;

// The most rows whose numbers fit two bytes.
const MOST_ROWS: usize = 65_535;

// For each house as many seals as there are rows for it, if a register can be made of them.
fn supply_of(houses: u8, rows: usize) -> Result<Supply, Refusal>
    ensures opens { Opens (register_asked houses rows) (Shared houses (rows / houses)) result }
    ensures room { IfOk result (λ y. (sum y.left ≤ rows) × (sum y.left ≤ most_rows)) }
{
    Refusal::HouseCount.unless(houses_fit(houses))?;
    Refusal::SealMemory.unless(usize::from(houses) <= rows && rows <= MOST_ROWS)?;
    Ok(Supply::share(houses, (rows / usize::from(houses)) as u16))
}

impl Register {
    // A register that uses no row of the table yet.
    fn begun(supply: Supply, table: Table) -> Register
        requires { (sum supply.left ≤ vec_capacity table.entries) × (sum supply.left ≤ most_rows) }
        ensures supply { result.supply ≡ supply }
        ensures entries { result.entries ≡ table.entries }
    {
        let Table { entries } = table;
        Register { supply, entries }
    }

    // A register of the table's rows, of which each house can use its part.
    pub fn open(houses: u8, table: Table) -> Result<Register, Refusal>
        ensures { Opens (register_asked houses (vec_capacity table.entries)) (λ s. Begun s houses (vec_capacity table.entries / houses) table) result }
    {
        let supply = supply_of(houses, table.entries.capacity())?;
        Ok(Register::begun(supply, table))
    }

    // The same where a refused opening still leaves a register, of no house.
    #[tactic(auto, using(crate::proofs::Shares::no_seals))]
    pub fn new(houses: u8, table: Table) -> Register
        ensures { Begun result (after (register_asked houses (vec_capacity table.entries)) (λ _. houses) 0) (after (register_asked houses (vec_capacity table.entries)) (λ _. vec_capacity table.entries / houses) 0) table }
    {
        // A match: with `unwrap_or` the check finds no proof that the rows suffice.
        match supply_of(houses, table.entries.capacity()) {
            Ok(supply) => Register::begun(supply, table),
            Err(_) => Register::begun(Supply::share(0, 0), table),
        }
    }
}
