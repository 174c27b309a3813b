// Houses of which some may misbehave, within the bounds that every rule is opened within.
ghost use Rattle.std.specs.Prelude.{◌≡◌, ◌+◌, ◌*◌, ◌≤◌, Ok, Err};
ghost use Rattle.witness.specs.Opening.{opened};
ghost use Rattle.witness.specs.Rules.{most_houses};

use refusal::Refusal;

// The most houses that a set of 16 bits can hold.
const MOST_HOUSES: u8 = 16;

#[derive(Clone, Copy)]
pub struct Houses {
    pub(crate) count: u8,
    pub(crate) faults: u8,
    ghost least: { 1 ≤ count },
    ghost most: { count ≤ most_houses },
    ghost few: { 3 * faults + 1 ≤ count },
}

impl Houses {
    // So many houses, of which so many may misbehave.
    pub(crate) fn open(count: u8, faults: u8) -> Result<Houses, Refusal>
        ensures { elim result [
          | Ok houses ↦ (opened count faults ≡ Ok tt) × (houses.count ≡ count) × (houses.faults ≡ faults)
          | Err refusal ↦ opened count faults ≡ Err refusal
        ] }
    {
        Refusal::HouseCount.unless(count >= 1 && count <= MOST_HOUSES)?;
        // In 16 bits, since three times a byte may not fit one.
        Refusal::TooManyFaults.unless(3 * u16::from(faults) + 1 <= u16::from(count))?;
        Ok(Houses { count, faults })
    }
}
