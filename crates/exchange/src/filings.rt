// Filing: the head's questions, the receipts in their order, and the row of the edition's house.
ghost use Rattle.std.specs.Prelude.{◌≡◌, ◌^◌, not, length, Ok, Err, MatchResult, bit_or, nat_lt};
ghost use Rattle.refusal.specs.Questions.{ask};
ghost use Rattle.refusal.specs.declared.Refusal.TheVariants.{NoSuchHouse, NotNamed, ReceiptRepeated, SealFails};
ghost use Rattle.exchange.specs.Layout.{receipt_at, bundle_statement, bundle_count};
ghost use Rattle.exchange.specs.Machine.{member, receipt_answer, walk, file_questions, file_answer, file_station};

use crate::filing::Filing;
use crate::layout::{HEAD_BYTES, receipt_at};
use crate::opening::Exchange;
use crate::reading::{Head, part_head};
use crate::station::Station;
use edition::admit;
use refusal::{Refusal, Refused};
use seal::{Seal, Statement};
use sha256::digest;
use witness::Rule;

impl<R: Rule, S: Seal> Exchange<R, S> {
    // All that is asked before the receipts; the head where every answer is yes.
    #[tactic(auto, unfolding(crate::specs::Machine::file_questions, crate::specs::Layout::bundle_statement))]
    fn parted(&self, station: &Station, bundle: &[u8], pages: &[u8]) -> Result<Head, Refused>
        ensures { MatchResult result (λ h. (file_questions (R.Rule.ruling self.now.rule) S.Seal.meaning station.now bundle.now pages.now ≡ Ok tt) × (h.statement ≡ bundle_statement bundle.now) × (h.count ≡ bundle_count bundle.now)) (λ e. file_questions (R.Rule.ruling self.now.rule) S.Seal.meaning station.now bundle.now pages.now ≡ Err e) }
    {
        Refusal::StationHouse.unless(self.has(station.house))?;
        admit(pages.len())?;
        let head = part_head(bundle).ok_or(Refusal::BundleTooShort)?;
        let statement = head.statement;
        Refusal::OtherRule.unless(statement.mark == self.rule.mark())?;
        Refusal::NoSuchHouse.unless(self.has(statement.house))?;
        station.rows[usize::from(statement.house)].is_next(statement.number)?;
        Refusal::OtherPages.unless(statement.digest == digest(pages))?;
        let length = receipt_at(S::LEN, u16::from(head.count));
        Refusal::BundleLength.unless(bundle.len() == length)?;
        Ok(head)
    }

    // The set of the houses in `met` with a house more, whose receipt is one for the statement.
    fn joined(&self, statement: Statement, house: u8, seal: &[u8], met: u16) -> Result<u16, Refusal>
        ensures { result ≡ ask (nat_lt house (R.Rule.ruling self.now.rule).houses) NoSuchHouse
            (ask (member ((R.Rule.ruling self.now.rule).named statement.house statement.number) house) NotNamed
            (ask (not (member met house)) ReceiptRepeated
            (ask (S.Seal.meaning.checks self.now.seal house statement seal.now) SealFails
            (Ok (bit_or met (2 ^ house)))))) }
    {
        self.admits(statement, house, met)?;
        Refusal::SealFails.unless(self.seal.check(house, statement, seal))?;
        Ok(met | 1 << house)
    }

    // The same for the receipt at a place, which a refusal names. No Receipt, since that counts places past a byte.
    fn take(
        &self,
        statement: Statement,
        place: u8,
        house: u8,
        seal: &[u8],
        met: u16,
    ) -> Result<u16, Refused>
        ensures { result ≡ receipt_answer (R.Rule.ruling self.now.rule) S.Seal.meaning self.now.seal statement place house seal.now met }
    {
        self.joined(statement, house, seal, met)
            .map_err(|refusal| Refused::at(refusal, place))
    }

    // The houses of a bundle's receipts, which are taken in their order; the first fault ends it.
    fn signers(&self, bundle: &[u8], head: Head) -> Result<u16, Refused>
        requires { (head.statement ≡ bundle_statement bundle.now) × (length bundle.now ≡ receipt_at S.Seal.meaning.size head.count) }
        ensures { result ≡ walk (R.Rule.ruling self.now.rule) S.Seal.meaning self.now.seal bundle.now head.count 0 0 }
    {
        let receipts = bundle[HEAD_BYTES..].chunks_exact(1 + S::LEN);
        let mut met = 0;
        for (i, receipt) in (0..head.count).zip(receipts) {
            met = self.take(head.statement, i + 1, receipt[0], &receipt[1..], met)?;
        }
        Ok(met)
    }

    // Whether the rule accepts the signers of a statement.
    fn accepted(&self, statement: Statement, signers: u16) -> bool
        ensures { result ≡ (R.Rule.ruling self.now.rule).accepts statement.house statement.number signers }
    {
        self.rule
            .accepts(statement.house, statement.number, signers)
    }

    // Files the pages of a bundle at a station.
    pub fn file(
        &self,
        station: &mut Station,
        bundle: &[u8],
        pages: &[u8],
    ) -> Result<Filing, Refused>
        ensures answer { result ≡ file_answer (R.Rule.ruling self.now.rule) S.Seal.meaning self.now.seal station.old bundle.now pages.now }
        ensures station { station.new ≡ file_station (R.Rule.ruling self.now.rule) S.Seal.meaning self.now.seal station.old bundle.now pages.now }
    {
        let head = self.parted(station, bundle, pages)?;
        let statement = head.statement;
        let signers = self.signers(bundle, head)?;
        Refusal::NotAccepted.unless(self.accepted(statement, signers))?;
        station.rows[usize::from(statement.house)].file(statement.number);
        Ok(Filing {
            station: station.house,
            house: statement.house,
            number: statement.number,
            digest: statement.digest,
            signers,
        })
    }
}
