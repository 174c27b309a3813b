// Making stamps from the houses' keys.
ghost use Rattle.std.specs.Prelude.{◌≡◌, ℕ, ◌+◌, ◌*◌, ◌<◌, ◌≤◌, [], length, slice_index_or};
ghost use Rattle.hmac.specs.Key.{key_block};
ghost use Rattle.refusal.specs.Questions.{after};
ghost use Rattle.seal.specs.Houses.{most_houses};
ghost use Rattle.seal.specs.Openings.{Opens, Shared};
ghost use Rattle.seal.specs.StampKinds.{key_size, most_stamps, blocks_of, key_at, stamps_asked, Keyed};

use crate::houses::{MOST_HOUSES, Supply, houses_fit};
use crate::stamps::Stamps;
use hmac::PreparedKey;
use refusal::Refusal;
use std::array;

// How many bytes a house's key for stamps has.
pub const KEY_BYTES: usize = 32;
// How many seals each house begins with.
const MOST: u16 = 65_535;

// For each house the most seals, if stamps can be made from so many key bytes. Like a register's but for the question and the share: one function for both would take them as two closures, and be no plainer.
fn supply_of(houses: u8, bytes: usize) -> Result<Supply, Refusal>
    ensures { Opens (stamps_asked houses bytes) (Shared houses most_stamps) result }
{
    Refusal::HouseCount.unless(houses_fit(houses))?;
    Refusal::SealMemory.unless(bytes == KEY_BYTES * usize::from(houses))?;
    Ok(Supply::share(houses, MOST))
}

// A key by its number, made ready, and the empty one past the last.
fn ready(keys: &[[u8; KEY_BYTES]], i: usize, empty: PreparedKey) -> PreparedKey
    requires { empty.block ≡ key_block [] }
    ensures { result.block ≡ key_block (slice_index_or keys.now i []) }
{
    match keys.get(i) {
        Some(key) => PreparedKey::new(key),
        None => empty,
    }
}

// The keys in order, made ready.
fn prepare(keys: &[u8]) -> [PreparedKey; MOST_HOUSES]
    ensures { (i : ℕ) → i < most_houses → key_size * i + key_size ≤ length keys.now → slice_index_or (blocks_of result) i [] ≡ key_block (key_at keys.now i) }
{
    let (keys, _) = keys.as_chunks::<KEY_BYTES>();
    // Made ready once for all places of no house.
    let empty = PreparedKey::new(&[]);
    array::from_fn(|i| ready(keys, i, empty))
}

impl Stamps {
    // Stamps for houses with 32 key bytes each, in order.
    pub fn open(houses: u8, keys: &[u8]) -> Result<Stamps, Refusal>
        ensures { Opens (stamps_asked houses (length keys.now)) (λ s. Keyed s houses keys.now) result }
    {
        let supply = supply_of(houses, keys.len())?;
        Ok(Stamps {
            supply,
            keys: prepare(keys),
        })
    }

    // The same where a refused opening still leaves stamps, of no house.
    #[tactic(auto, unfolding(crate::specs::Houses::shares))]
    pub fn new(houses: u8, keys: &[u8]) -> Stamps
        ensures { Keyed result (after (stamps_asked houses (length keys.now)) (λ _. houses) 0) keys.now }
    {
        Stamps::open(houses, keys).unwrap_or_else(|_| Stamps {
            supply: Supply::share(0, 0),
            keys: prepare(&[]),
        })
    }
}
