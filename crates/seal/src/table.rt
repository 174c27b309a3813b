// The rows of a register, allocated before it is opened.
ghost use Rattle.std.specs.Prelude.{◌≡◌, []};

use crate::entry::Entry;

mod making;

// No row is used.
#[derive(Drop)]
pub struct Table {
    pub(crate) entries: Vec<Entry>,
    ghost unused: { entries.items ≡ [] },
}
