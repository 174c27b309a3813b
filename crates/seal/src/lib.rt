// Seal kinds: signatures as an exchangeable part, with a register and stamps to begin with.
#![tactic(auto)]

ghost use Rattle.seal.specs.Signings.{SealsAreSigned};

mod entry;
mod houses;
mod kind;
mod register;
mod stamps;
mod statement;
mod table;

pub use entry::Entry;
pub use kind::Seal;
pub use register::Register;
pub use stamps::{KEY_BYTES, Stamps};
pub use statement::{STATEMENT_BYTES, Statement};
pub use table::Table;

// Whatever checks in a register was signed since it was opened, by that house and on that statement.
#[tactic(auto, using(crate::proofs::Signings::seals_are_signed))]
pub fn register_seals_are_signed()
    ensures { SealsAreSigned }
{}
