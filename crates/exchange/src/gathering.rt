// The states of a gathering of receipts. They move and are never copied.
use crate::notice::Notice;

// Receipts are being gathered for one notice; their bytes lie in the caller's memory.
#[derive(Drop)]
pub struct Gathering {
    pub(crate) notice: Notice,
    // The houses whose receipts are gathered, house i by bit i.
    pub(crate) gathered: u16,
}

// A gathering whose set of houses the rule accepted. Only close makes one.
#[derive(Drop)]
pub struct Closed {
    pub(crate) whole: Gathering,
}
