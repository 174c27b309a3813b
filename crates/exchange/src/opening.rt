// The exchange: a witness rule and a seal kind. Its calls stand in the modules beside this one.
ghost use Rattle.std.specs.Prelude.{◌≡◌};
ghost use Rattle.exchange.specs.Law.{Law, InOrder, OneDigest, ReadsBack};

use seal::Seal;
use witness::Rule;

#[derive(Drop)]
pub struct Exchange<R: Rule, S: Seal> {
    pub(crate) rule: R,
    pub(crate) seal: S,
}

impl<R: Rule, S: Seal> Exchange<R, S> {
    // Takes a rule and a seal kind. Its second clause is the law over all runs: agreement, order and honesty, progress.
    pub fn open(rule: R, seal: S) -> Exchange<R, S>
        ensures value { result ≡ record { rule = rule; seal = seal } }
        ensures law { Law (R.Rule.ruling rule) S.Seal.meaning }
    {
        Exchange { rule, seal }
    }

    // With at most t houses that are not honest, one fresh station for each honest house and no forged seal, whatever is filed for one
    // house and number has one digest.
    pub fn filings_have_one_digest(&self)
        ensures { OneDigest (R.Rule.ruling self.now.rule) S.Seal.meaning }
    {}

    // What a house with one station, fresh at the opening, files of any house has the numbers 1, 2, 3 and so on.
    pub fn filings_are_in_order(&self)
        ensures { InOrder (R.Rule.ruling self.now.rule) S.Seal.meaning }
    {}

    // Where each call of a gathering is given the memory that its call before left, the bundle that issue leaves reads back as
    // exactly the houses and seals that its adds took, in their order.
    pub fn bundles_read_back(&self)
        ensures { ReadsBack (R.Rule.ruling self.now.rule) S.Seal.meaning }
    {}

    pub fn rule(&self) -> &R
        ensures { result.now ≡ self.now.rule }
    {
        &self.rule
    }

    pub fn seal(&self) -> &S
        ensures { result.now ≡ self.now.seal }
    {
        &self.seal
    }
}
