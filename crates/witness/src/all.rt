// The rule All: every house is a witness.
ghost use Rattle.witness.specs.All.{all_mark, all_need};
ghost use Rattle.witness.specs.Laws.{all_lawful};
ghost use Rattle.witness.specs.Sets.{full};

use crate::counted::{Counted, Witnesses};
use crate::houses::Houses;
use edition::Number;

pub type All = Counted<EveryHouse>;

// Every house is named, for each house and number.
#[derive(Clone, Copy)]
pub struct EveryHouse;

impl Witnesses for EveryHouse {
    ghost MARK = { all_mark };

    ghost named = { λ n _ _ _. full n };

    ghost need = { all_need };

    ghost lawful = { all_lawful };

    const MARK: u8 = 1;

    fn named(houses: &Houses, _: u8, _: Number) -> u16 {
        // In 32 bits, since with 16 houses the bit is past the last of 16.
        ((1u32 << houses.count) - 1) as u16
    }

    // Two sets of that size share more houses than may misbehave.
    fn need(houses: &Houses) -> u8 {
        (houses.count + houses.faults + 1).div_ceil(2)
    }
}
