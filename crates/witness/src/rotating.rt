// The rule Rotating: 3t + 1 witnesses, which move around the circle of houses from number to number.
ghost use Rattle.std.specs.Prelude.{◌≡◌, ◌+◌, ◌*◌};
ghost use Rattle.witness.specs.Laws.{rotating_lawful};
ghost use Rattle.witness.specs.Rotating.{circle, rotating_mark, rotating_need};

use crate::counted::{Counted, Witnesses};
use crate::houses::Houses;
use edition::Number;

pub type Rotating = Counted<NextHouses>;

// The houses that come next around the circle are named.
#[derive(Clone, Copy)]
pub struct NextHouses;

impl Witnesses for NextHouses {
    ghost MARK = { rotating_mark };

    ghost named = { λ n t j k. circle n (j + k) (3 * t + 1) };

    ghost need = { λ _ t. rotating_need t };

    ghost lawful = { rotating_lawful };

    const MARK: u8 = 2;

    fn named(houses: &Houses, house: u8, number: Number) -> u16 {
        around(houses, house, number, 3 * houses.faults + 1)
    }

    fn need(houses: &Houses) -> u8 {
        2 * houses.faults + 1
    }
}

// So many houses, one after the other around the circle. The first of them is as many steps on from the house as the number says.
fn around(houses: &Houses, house: u8, number: Number, many: u8) -> u16
    ensures { result ≡ circle houses.now.count (house + number) many }
{
    let first = u32::from(house) + u32::from(number);
    (0..many).fold(0, |set, r| {
        set | 1 << ((first + u32::from(r)) % u32::from(houses.count))
    })
}
