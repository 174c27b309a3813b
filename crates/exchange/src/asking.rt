// What several calls ask.
ghost use Rattle.std.specs.Prelude.{◌≡◌, not, Ok, nat_lt};
ghost use Rattle.refusal.specs.Questions.{ask};
ghost use Rattle.refusal.specs.declared.Refusal.TheVariants.{NoSuchHouse, NotNamed, ReceiptRepeated};
ghost use Rattle.exchange.specs.Machine.{member, statement_of};

use crate::notice::Notice;
use crate::opening::Exchange;
use refusal::Refusal;
use seal::{Seal, Statement};
use witness::Rule;

// Whether a house is in a set. Sets are numbers of 16 bits, as in the rules' meaning and laws: a type around them would be taken apart at each.
pub(crate) fn is_member(set: u16, house: u8) -> bool
    ensures { result ≡ member set house }
{
    set.checked_shr(u32::from(house))
        .is_some_and(|rest| rest % 2 == 1)
}

impl<R: Rule, S: Seal> Exchange<R, S> {
    // Is there such a house?
    pub(crate) fn has(&self, house: u8) -> bool
        ensures { result ≡ nat_lt house (R.Rule.ruling self.now.rule).houses }
    {
        house < self.rule.houses()
    }

    // What a witness of a notice signs.
    pub fn statement(&self, notice: Notice) -> Statement
        ensures { result ≡ statement_of (R.Rule.ruling self.now.rule) notice.house notice.number notice.digest }
    {
        Statement {
            mark: self.rule.mark(),
            house: notice.house,
            number: notice.number,
            digest: notice.digest,
        }
    }

    // Whether a house may give a receipt for a statement, after those of the houses in `met`.
    pub(crate) fn admits(&self, statement: Statement, house: u8, met: u16) -> Result<(), Refusal>
        ensures { result ≡ ask (nat_lt house (R.Rule.ruling self.now.rule).houses) NoSuchHouse
            (ask (member ((R.Rule.ruling self.now.rule).named statement.house statement.number) house) NotNamed
            (ask (not (member met house)) ReceiptRepeated (Ok tt))) }
    {
        Refusal::NoSuchHouse.unless(self.has(house))?;
        let named = self.rule.named(statement.house, statement.number);
        Refusal::NotNamed.unless(is_member(named, house))?;
        Refusal::ReceiptRepeated.unless(!is_member(met, house))
    }
}
