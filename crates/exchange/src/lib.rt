#![tactic(auto)]

mod announcing;
mod asking;
mod collecting;
mod filing;
mod filings;
mod fresh;
mod gathering;
mod layout;
mod notice;
mod opening;
mod reading;
mod rows;
mod station;

pub use filing::Filing;
pub use gathering::{Closed, Gathering};
pub use notice::Notice;
pub use opening::Exchange;
pub use reading::{Head, Receipt, part_head, read_receipt};
pub use station::{Row, Station};
