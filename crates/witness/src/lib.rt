// Witness rules: who may acknowledge an edition, and which sets of houses suffice.
#![tactic(auto)]

ghost use Rattle.witness.specs.Cases.{RuleCases};
ghost use Rattle.witness.specs.Consequences.{HonestInCommon, HonestSuffice};
ghost use Rattle.witness.specs.Counting.{Counts, Weighs};

mod all;
mod counted;
mod houses;
mod rotating;
mod rule;

pub use all::All;
pub use rotating::Rotating;
pub use rule::Rule;

// How sets of houses count, and how they weigh where houses have weights.
#[tactic(auto, using(crate::specs::CountingLemmas::counts, crate::specs::CountingLemmas::weighs))]
pub fn counting_of_sets()
    ensures counts { Counts }
    ensures weighs { Weighs }
{}

// What the laws give, for every rule that keeps them: agreement rests on the first, progress on the second.
#[tactic(auto, using(crate::proofs::Consequences::agreement, crate::proofs::Consequences::progress))]
pub fn consequences_of_laws()
    ensures agreement { HonestInCommon }
    ensures progress { HonestSuffice }
{}

// Worked cases of both rules.
#[tactic(auto, using(crate::proofs::Cases::cases))]
pub fn cases_of_rules()
    ensures { RuleCases }
{}
