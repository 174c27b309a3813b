// Seals that are stamps: the HMAC of the statement under the house's key.
use crate::houses::{MOST_HOUSES, Supply};
use hmac::PreparedKey;

mod opening;
mod sealing;

pub use opening::KEY_BYTES;

// It keeps prepared keys, so that a seal does not hash the key again; places of no house hold an empty key,
// and not none, since a key is looked up for a house that there is.
#[derive(Drop)]
pub struct Stamps {
    supply: Supply,
    // Beside the supply and not in it, since a register has a supply and no keys.
    keys: [PreparedKey; MOST_HOUSES],
}
