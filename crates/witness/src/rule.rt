// What a witness rule is.
ghost use Rattle.std.specs.Prelude.{◌≡◌};
ghost use Rattle.witness.specs.Rules.{Ruling, Lawful};

use edition::Number;

// A witness rule. It answers for every house and number: no house is named and no set is accepted
// for a house that is not there or for number 0.
// House and number stay two parameters: a struct would be made at each call only to be taken apart.
pub trait Rule {
    ghost ruling: { Self → Ruling };

    // How many houses there are.
    fn houses(&self) -> u8
        ensures { result ≡ (ruling self.now).houses };

    // How many of them may misbehave.
    fn faults(&self) -> u8
        ensures { result ≡ (ruling self.now).faults };

    // The byte by which statements name the rule.
    fn mark(&self) -> u8
        ensures { result ≡ (ruling self.now).mark };

    // The houses that are named as witnesses, house i by bit i.
    fn named(&self, house: u8, number: Number) -> u16
        ensures { result ≡ (ruling self.now).named house number };

    // Whether a set of houses is accepted.
    fn accepts(&self, house: u8, number: Number, set: u16) -> bool
        ensures { result ≡ (ruling self.now).accepts house number set };

    ghost lawful: { (r : Self) → Lawful (ruling r) };
}
