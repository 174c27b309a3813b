// A house's own record of what it announced, noted and filed.
use edition::Number;
use sha256::Digest;

// Of one house: the last number filed, and the slots of the four numbers after it, each with the digest noted for its number.
#[derive(Clone, Copy)]
pub struct Row {
    pub(crate) last: Number,
    pub(crate) slots: [Option<Digest>; 4],
}

#[derive(Clone, Copy)]
pub struct Station {
    // The house that it belongs to.
    pub(crate) house: u8,
    // How many editions it has announced.
    pub(crate) announced: Number,
    // A row for each of 16 houses, in an array, since the exchange allocates nothing.
    pub(crate) rows: [Row; 16],
}
