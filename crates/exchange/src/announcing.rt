// Announcing and noting: the calls that change a station before a filing.
ghost use Rattle.std.specs.Prelude.{◌≡◌, length};
ghost use Rattle.seal.specs.Meanings.{Signing, sign_answer};
ghost use Rattle.exchange.specs.Machine.{placed, statement_of, announce_answer, announce_station, note_answer, note_station};

use crate::asking::is_member;
use crate::notice::Notice;
use crate::opening::Exchange;
use crate::rows::{WINDOW, free_of_other};
use crate::station::Station;
use edition::{LAST_NUMBER, Number, admit};
use refusal::{Refusal, Refused};
use seal::{Seal, Statement};
use sha256::{Digest, digest};
use witness::Rule;

impl<R: Rule, S: Seal> Exchange<R, S> {
    // A house's next edition: its number and its digest. No Notice, since the house is the station's own.
    pub fn announce(&self, station: &mut Station, pages: &[u8]) -> Result<(Number, Digest), Refused>
        ensures answer { result ≡ announce_answer (R.Rule.ruling self.now.rule) station.old pages.now }
        ensures station { station.new ≡ announce_station (R.Rule.ruling self.now.rule) station.old pages.now }
    {
        Refusal::StationHouse.unless(self.has(station.house))?;
        Refusal::NumbersUsedUp.unless(station.announced < LAST_NUMBER)?;
        let last = station.rows[usize::from(station.house)].last;
        Refusal::WindowFull.unless(station.announced.saturating_sub(last) < WINDOW)?;
        admit(pages.len())?;
        station.announced += 1;
        Ok((station.announced, digest(pages)))
    }

    // The station's house gives its receipt for a notice.
    pub fn note(
        &mut self,
        station: &mut Station,
        notice: Notice,
        memory: &mut [u8],
    ) -> Result<(), Refused>
        ensures answer { result ≡ note_answer (R.Rule.ruling self.old.rule) S.Seal.meaning self.old.seal station.old notice.house notice.number notice.digest (length memory.old) }
        ensures station { station.new ≡ note_station (R.Rule.ruling self.old.rule) S.Seal.meaning self.old.seal station.old notice.house notice.number notice.digest (length memory.old) }
        ensures rule { self.new.rule ≡ self.old.rule }
        ensures leaves { Signing S.Seal.meaning result station.old.house (statement_of (R.Rule.ruling self.old.rule) notice.house notice.number notice.digest) self.old.seal memory.old self.new.seal memory.new }
    {
        let own = station.house;
        Refusal::StationHouse.unless(self.has(own))?;
        Refusal::NoSuchHouse.unless(self.has(notice.house))?;
        let row = &mut station.rows[usize::from(notice.house)];
        let place = row.place_of(notice.number)?;
        let named = self.rule.named(notice.house, notice.number);
        Refusal::NotNamed.unless(is_member(named, own))?;
        let slot = &mut row.slots[place];
        Refusal::OtherDigestNoted.unless(free_of_other(*slot, notice.digest))?;
        Refusal::AlreadyNoted.unless(slot.is_none())?;
        let statement = self.statement(notice);
        self.seal.sign(own, statement, memory)?;
        *slot = Some(notice.digest);
        Ok(())
    }

    // A house's seal on any statement.
    pub fn sign(
        &mut self,
        house: u8,
        statement: Statement,
        memory: &mut [u8],
    ) -> Result<(), Refused>
        ensures answer { result ≡ placed (sign_answer S.Seal.meaning self.old.seal house (length memory.old)) }
        ensures rule { self.new.rule ≡ self.old.rule }
        ensures leaves { Signing S.Seal.meaning result house statement self.old.seal memory.old self.new.seal memory.new }
    {
        self.seal.sign(house, statement, memory)?;
        Ok(())
    }
}
