// Rules that count: a set is accepted where enough of its members are named.
ghost use Rattle.std.specs.Prelude.{◌≡◌, ℕ, ◌+◌, ◌*◌, ◌≤◌, Ok, Err};
ghost use Rattle.witness.specs.Opening.{opened};
ghost use Rattle.witness.specs.Rules.{Lawful, most_houses};
ghost use Rattle.witness.specs.Sized.{counted};

use crate::houses::Houses;
use crate::rule::Rule;
use edition::Number;
use refusal::Refusal;
use std::marker::PhantomData;

// Which houses such a rule names, how many of them it needs, and its mark. The ghost members take n houses of which t may misbehave.
pub trait Witnesses {
    ghost MARK: { ℕ };

    ghost named: { (n t j k : ℕ) → ℕ };

    ghost need: { (n t : ℕ) → ℕ };

    // The byte by which statements name the rule.
    const MARK: u8;

    // The houses that are named for one of the houses and a number above 0.
    fn named(houses: &Houses, house: u8, number: Number) -> u16
        ensures { result ≡ named houses.now.count houses.now.faults house number };

    // The least number of named houses that are accepted.
    fn need(houses: &Houses) -> u8
        ensures { result ≡ need houses.now.count houses.now.faults };

    ghost lawful: { (n t : ℕ) → 1 ≤ n → n ≤ most_houses → 3 * t + 1 ≤ n → Lawful (counted n t MARK (named n t) (need n t)) };
}

// A rule that counts the members that W names.
#[derive(Clone, Copy)]
pub struct Counted<W> {
    houses: Houses,
    witnesses: PhantomData<W>,
}

impl<W: Witnesses> Counted<W> {
    // The rule for so many houses, of which so many may misbehave.
    pub fn open(houses: u8, faults: u8) -> Result<Counted<W>, Refusal>
        ensures { elim result [
          | Ok rule ↦ (opened houses faults ≡ Ok tt) × (rule.houses.count ≡ houses) × (rule.houses.faults ≡ faults)
          | Err refusal ↦ opened houses faults ≡ Err refusal
        ] }
    {
        let houses = Houses::open(houses, faults)?;
        Ok(Counted {
            houses,
            witnesses: PhantomData,
        })
    }

    // The least number of named houses that are accepted.
    pub fn need(&self) -> u8
        ensures { result ≡ W.need self.now.houses.count self.now.houses.faults }
    {
        W::need(&self.houses)
    }
}

impl<W: Witnesses> Rule for Counted<W> {
    ghost ruling = { λ r. let n = r.houses.count in let t = r.houses.faults in counted n t W.MARK (W.named n t) (W.need n t) };

    ghost lawful = { λ r. W.lawful r.houses.count r.houses.faults r.houses.least r.houses.most r.houses.few };

    fn houses(&self) -> u8 {
        self.houses.count
    }

    fn faults(&self) -> u8 {
        self.houses.faults
    }

    fn mark(&self) -> u8 {
        W::MARK
    }

    fn named(&self, house: u8, number: Number) -> u16 {
        if house < self.houses.count && number > 0 {
            W::named(&self.houses, house, number)
        } else {
            0
        }
    }

    fn accepts(&self, house: u8, number: Number, set: u16) -> bool {
        (set & self.named(house, number)).count_ones() >= u32::from(self.need())
    }
}
