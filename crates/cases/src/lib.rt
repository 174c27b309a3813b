// What holds of an exchange at each rule and each seal kind, and worked cases.
#![tactic(auto)]

ghost use Rattle.cases.specs.Cases.{Cases};
ghost use Rattle.cases.specs.Dishonest.{OneCanBeDishonest, OneCanBeDishonestOpened};
ghost use Rattle.cases.specs.Filing.{ConditionsCanHold, ConditionsCanHoldOpened};
ghost use Rattle.cases.specs.Forging.{RegisterUnforged, RegisterUnforgedByNote};

use seal::Seal;
use witness::cases_of_rules;

mod laws;

pub use laws::{law_at_both_rules, law_over_register, law_over_stamps};

// In every run over a register of which no row was used at the opening, what checks for an honest house was signed by a note of it.
// Already where no direct sign for an honest house is taken, whatever notices carry.
#[tactic(auto, using(crate::proofs::Forging::register_unforged, crate::proofs::Forging::register_unforged_by_note))]
pub fn register_seals_are_not_forged()
    ensures fair { RegisterUnforged }
    ensures by_note { RegisterUnforgedByNote }
{}

// Worked cases of the rules and of the calls, whatever the seal kind.
pub fn cases_of_calls<S: Seal>()
    ensures { Cases S.Seal.meaning }
{
    cases_of_rules();
}

// The law's conditions can be met: a run in which an honest house announces, notes, gathers, issues and files.
pub fn a_run_that_files()
    ensures unused { ConditionsCanHold }
    ensures opened { ConditionsCanHoldOpened }
{}

// They can be met with a house that is not honest: a run of four houses in which one signs two digests for one number, and an honest
// house files the one that was announced. Of two digests handed to it in that house's name for one number it notes one and refuses the other.
pub fn a_run_with_a_dishonest_house()
    ensures unused { OneCanBeDishonest }
    ensures opened { OneCanBeDishonestOpened }
{}
