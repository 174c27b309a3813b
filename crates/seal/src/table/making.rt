// Making a table.
ghost use Rattle.std.specs.Prelude.{◌≡◌, IfOk, vec_capacity};

use crate::table::Table;
use std::alloc::{AllocError, Global};

impl Table {
    // Room for so many rows.
    pub fn new(heap: Global, rows: usize) -> Result<Table, AllocError>
        ensures { IfOk result (λ t. vec_capacity t.entries ≡ rows) }
    {
        let entries = Vec::with_capacity(heap, rows)?;
        Ok(Table { entries })
    }
}
