// Collecting receipts: start, add, close and issue.
ghost use Rattle.std.specs.Prelude.{◌≡◌, ◌≤◌, length, count_ones};
ghost use Rattle.exchange.specs.Machine.{start_answer, add_answer, add_gathering, add_memory, close_answer, issue_answer, issue_memory};

use crate::gathering::{Closed, Gathering};
use crate::layout::{receipt_at, write_head, write_receipt};
use crate::notice::Notice;
use crate::opening::Exchange;
use refusal::{Refusal, Refused};
use seal::Seal;
use witness::Rule;

impl Gathering {
    // How many receipts are gathered.
    fn count(&self) -> u8
        ensures value { result ≡ count_ones self.now.gathered }
        ensures bound { result ≤ 16 }
    {
        self.gathered.count_ones() as u8
    }
}

impl<R: Rule, S: Seal> Exchange<R, S> {
    // A gathering without receipts.
    pub fn start(&self, notice: Notice) -> Result<Gathering, Refused>
        ensures { result ≡ start_answer (R.Rule.ruling self.now.rule) notice.house notice.number notice.digest }
    {
        Refusal::NoSuchHouse.unless(self.has(notice.house))?;
        Refusal::NumberPast.unless(notice.number > 0)?;
        Ok(Gathering {
            notice,
            gathered: 0,
        })
    }

    // One receipt more, written after the earlier ones.
    pub fn add(
        &self,
        gathering: &mut Gathering,
        house: u8,
        seal: &[u8],
        memory: &mut [u8],
    ) -> Result<(), Refused>
        ensures answer { result ≡ add_answer (R.Rule.ruling self.now.rule) S.Seal.meaning self.now.seal gathering.old house seal.now (length memory.old) }
        ensures gathering { gathering.new ≡ add_gathering (R.Rule.ruling self.now.rule) S.Seal.meaning self.now.seal gathering.old house seal.now (length memory.old) }
        ensures memory { memory.new ≡ add_memory (R.Rule.ruling self.now.rule) S.Seal.meaning self.now.seal gathering.old house seal.now memory.old }
    {
        let statement = self.statement(gathering.notice);
        self.admits(statement, house, gathering.gathered)?;
        let size = S::LEN;
        Refusal::SealLength.unless(seal.len() == size)?;
        Refusal::SealFails.unless(self.seal.check(house, statement, seal))?;
        let count = u16::from(gathering.count());
        Refusal::MemoryTooSmall.unless(receipt_at(size, count + 1) <= memory.len())?;
        write_receipt(memory, receipt_at(size, count), house, seal);
        gathering.gathered |= 1 << house;
        Ok(())
    }

    // Closes a gathering that the rule accepts; else hands it back.
    pub fn close(&self, gathering: Gathering) -> Result<Closed, (Refused, Gathering)>
        ensures { result ≡ close_answer (R.Rule.ruling self.now.rule) gathering }
    {
        let Notice { house, number, .. } = gathering.notice;
        // An `if`, as below: a refusal hands back what `unless` would not carry.
        if !self.rule.accepts(house, number, gathering.gathered) {
            return Err((Refused::new(Refusal::NotAccepted), gathering));
        }
        Ok(Closed { whole: gathering })
    }

    // Writes the head of the bundle before its receipts, and answers the bundle's length; else hands the closed gathering back.
    pub fn issue(&self, closed: Closed, memory: &mut [u8]) -> Result<usize, (Refused, Closed)>
        ensures answer { result ≡ issue_answer S.Seal.meaning closed (length memory.old) }
        ensures memory { memory.new ≡ issue_memory (R.Rule.ruling self.now.rule) S.Seal.meaning closed memory.old }
    {
        let count = closed.whole.count();
        let length = receipt_at(S::LEN, u16::from(count));
        if memory.len() < length {
            return Err((Refused::new(Refusal::MemoryTooSmall), closed));
        }
        write_head(memory, self.statement(closed.whole.notice), count);
        Ok(length)
    }
}
