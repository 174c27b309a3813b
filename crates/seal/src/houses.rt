// What both seal kinds know of their houses.
ghost use Rattle.std.specs.Prelude.{◌≡◌, ◌<◌, ◌≤◌, OnOk};
ghost use Rattle.seal.specs.Houses.{most_houses, house_count, shares, left_of, spent, sign_asked};

use refusal::Refusal;

// The most houses that a seal kind can have.
pub(crate) const MOST_HOUSES: usize = 16;

// Whether there are from 1 to 16 houses.
pub(crate) fn houses_fit(houses: u8) -> bool
    ensures { result ≡ house_count houses }
{
    houses >= 1 && usize::from(houses) <= MOST_HOUSES
}

// How many seals each house has left.
#[derive(Clone, Copy)]
pub(crate) struct Supply {
    houses: u8,
    // By house, in fixed memory.
    left: [u16; MOST_HOUSES],
    ghost few: { houses ≤ most_houses },
}

impl Supply {
    // So many seals for each house, and none for the places of no house.
    pub(crate) fn share(houses: u8, each: u16) -> Supply
        requires { houses ≤ most_houses }
        ensures houses { result.houses ≡ houses }
        ensures left { result.left ≡ shares houses each }
    {
        let mut left = [0; MOST_HOUSES];
        left[..usize::from(houses)].fill(each);
        Supply { houses, left }
    }

    pub(crate) fn houses(&self) -> u8
        ensures { result ≡ self.now.houses }
    {
        self.houses
    }

    // How many seals a house has left: one that is not below the number of houses has none.
    pub(crate) fn left(&self, house: u8) -> u32
        ensures { result ≡ left_of self.now.houses self.now.left house }
    {
        if house < self.houses {
            u32::from(self.left[usize::from(house)])
        } else {
            0
        }
    }

    // What each sign asks: whether the house has a seal left, and the memory room for a seal. What it does then is a line or two, and differs by kind: a shared sign would take those as closures, and be longer.
    pub(crate) fn ask(&self, house: u8, size: usize, room: usize) -> Result<(), Refusal>
        ensures answer { result ≡ sign_asked (left_of self.now.houses self.now.left house) size room }
        ensures taken { OnOk result ((0 < left_of self.now.houses self.now.left house) × (size ≤ room)) }
    {
        Refusal::NoSealLeft.unless(self.left(house) > 0)?;
        Refusal::MemoryTooSmall.unless(size <= room)
    }

    // One seal less for the house, which has one left.
    pub(crate) fn spend(&mut self, house: u8)
        requires { 0 < left_of self.old.houses self.old.left house }
        ensures houses { self.new.houses ≡ self.old.houses }
        ensures left { self.new.left ≡ spent self.old.left house }
    {
        self.left[usize::from(house)] -= 1;
    }
}
