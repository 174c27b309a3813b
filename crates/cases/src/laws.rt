// The law at each rule, over each seal kind.
ghost use Rattle.cases.specs.Unused.{LawUnused};
ghost use Rattle.exchange.specs.Law.{Law};
ghost use Rattle.seal.specs.Registers.{register};
ghost use Rattle.seal.specs.StampKinds.{stamps};
ghost use Rattle.witness.specs.All.{all_ruling};
ghost use Rattle.witness.specs.Rotating.{rotating_ruling};

use witness::{All, Rotating, Rule};

// Any rule over a register. Where no row was used at the opening there is no condition on seals.
pub fn law_over_register<R: Rule>(rule: &R)
    ensures law { Law (R.Rule.ruling rule.now) register }
    ensures unused { LawUnused (R.Rule.ruling rule.now) }
{}

// Any rule over stamps.
pub fn law_over_stamps<R: Rule>(rule: &R)
    ensures { Law (R.Rule.ruling rule.now) stamps }
{}

// The rules All and Rotating over a register and over stamps.
pub fn law_at_both_rules(all: &All, rotating: &Rotating)
    ensures all_over_register { Law (all_ruling all.now.houses.count all.now.houses.faults) register }
    ensures all_unused { LawUnused (all_ruling all.now.houses.count all.now.houses.faults) }
    ensures all_over_stamps { Law (all_ruling all.now.houses.count all.now.houses.faults) stamps }
    ensures rotating_over_register { Law (rotating_ruling rotating.now.houses.count rotating.now.houses.faults) register }
    ensures rotating_unused { LawUnused (rotating_ruling rotating.now.houses.count rotating.now.houses.faults) }
    ensures rotating_over_stamps { Law (rotating_ruling rotating.now.houses.count rotating.now.houses.faults) stamps }
{
    law_over_register(all);
    law_over_stamps(all);
    law_over_register(rotating);
    law_over_stamps(rotating);
}
