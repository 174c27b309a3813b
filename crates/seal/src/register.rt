// Seals that are rows of a register: a seal is the number of the row that the sign used.
ghost use Rattle.std.specs.Prelude.{◌+◌, ◌≤◌, vec_len, vec_capacity, sum};
ghost use Rattle.seal.specs.Rows.{most_rows};

use crate::entry::Entry;
use crate::houses::Supply;

mod opening;
mod reading;
mod sealing;

// The used rows in their order. There is room for one for every seal that is left, so no sign fails for want of memory.
#[derive(Drop)]
pub struct Register {
    supply: Supply,
    entries: Vec<Entry>,
    ghost room: { vec_len entries + sum supply.left ≤ vec_capacity entries },
    ghost numbered: { vec_len entries + sum supply.left ≤ most_rows },
}
