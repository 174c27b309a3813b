// Reading the rows in order.
ghost use Rattle.std.specs.Prelude.{◌≡◌, is_some, nat_lt};
ghost use Rattle.seal.specs.Registers.{entries_of, used, row_at};

use crate::entry::Entry;
use crate::register::Register;

impl Register {
    // The used rows in order.
    pub fn entries(&self) -> &[Entry]
        ensures { result.now ≡ entries_of self.now }
    {
        &self.entries
    }

    // How many rows are used.
    pub fn used(&self) -> usize
        ensures { result ≡ used self.now }
    {
        self.entries.len()
    }

    // A used row by its number.
    pub fn row(&self, i: usize) -> Option<Entry>
        ensures value { result ≡ row_at self.now i }
        ensures test { is_some result ≡ nat_lt i (used self.now) }
    {
        self.entries.get(i).copied()
    }
}
