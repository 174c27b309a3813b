// A used row of a register.
use crate::statement::Statement;

// The house signed the statement.
#[derive(Clone, Copy, PartialEq)]
pub struct Entry {
    pub house: u8,
    pub statement: Statement,
}
