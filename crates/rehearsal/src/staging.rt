// The exchange of a rehearsal with a station for each house, and the calls played on them.
ghost use Rattle.std.specs.Prelude.{◌≡◌, ◌<◌, ◌≤◌, [], min, length, IfOk, Ok, Err, MatchOption, MatchResult, Some};
ghost use Rattle.std.specs.Iterator.{at_most};
ghost use Rattle.std.specs.Option.{option_map};
ghost use Rattle.sha256.specs.Text.{digest_of};
ghost use Rattle.seal.specs.Registers.{used};
ghost use Rattle.seal.specs.Rows.{row_bytes};
ghost use Rattle.exchange.specs.Stations.{fresh_station};
ghost use Rattle.rehearsal.specs.Bundles.{row_step, rows_from, bundle_of};
ghost use Rattle.rehearsal.specs.Calls.{station_place, announce_outcome, announce_stations, note_outcome, note_stations, NoteLeft, file_outcome, file_stations, Gave, stations_after, Left, shown_event, TakesLine};
ghost use Rattle.rehearsal.specs.Events.{asking, meant};
ghost use Rattle.rehearsal.specs.Playing.{Fresh, Opens, Ran, Staged};

use crate::events::{Asked, Call, Event, Named, parse};
use crate::fields::{LINE_END, capped, cut};
use crate::report::{Line, Shown};
use exchange::{Exchange, Gathering, Notice, Station};
use refusal::{Refusal, Refused};
use seal::{Entry, Register, Seal, Statement, Table};
use sha256::digest;
use std::alloc::{AllocError, Global};
use std::array;
use witness::Rule;

// How many rows of the register there are for each house.
const ROWS_EACH: usize = 64;
// The stations of all houses that there can be.
const STATIONS: usize = 16;
// A bundle's head and a receipt of each of 16 houses, three bytes each.
const BUNDLE: usize = 85;

#[derive(Drop)]
pub(crate) struct Stage<R: Rule> {
    exchange: Exchange<R, Register>,
    // One for each house that there can be, so that none is ever missing.
    stations: [Station; STATIONS],
}

fn station(house: u8) -> Station
    requires { house < 16 }
    ensures { result ≡ fresh_station house }
{
    Station::open(house).unwrap()
}

// The event lines that are left.
#[derive(Drop)]
struct EventLines<'a> {
    rest: &'a [u8],
}

impl<'a> Iterator for EventLines<'a> {
    // The event of a line, nothing if the line has not the right form or no end.
    type Item = Option<Event<'a>>;

    ghost next_gives = { λ lines event left. MatchOption event ((lines.rest.now ≡ []) × (left ≡ lines)) (λ e. TakesLine lines.rest.now (option_map meant e) left.rest.now) };

    ghost remaining = { λ lines. at_most (length lines.rest.now) };

    fn next(&mut self) -> Option<Option<Event<'a>>> {
        if self.rest.is_empty() {
            return None;
        }
        let (event, after): (Option<Event>, &[u8]) = match cut(self.rest, LINE_END) {
            Some((line, after)) => (parse(line), after),
            None => (None, &[]),
        };
        self.rest = after;
        Some(event)
    }
}

// The seal that names a row: its number. One expression, which the register writes for its next row; a public function of it would
// have to refuse a row past two bytes.
fn seal_of(row: usize) -> [u8; 2]
    requires { row < 65536 }
    ensures { result ≡ row_bytes row }
{
    (row as u16).to_be_bytes()
}

// The notice that an event's text was announced under the house and the number that it names.
fn notice_of(named: Named, text: &[u8]) -> Notice
    ensures { result ≡ record { house = min named.house 255; number = named.number; digest = digest_of text.now } }
{
    Notice {
        house: capped(named.house),
        number: named.number,
        digest: digest(text),
    }
}

// A fresh station for each house, at the house's place.
fn fresh_stations() -> [Station; STATIONS]
    ensures { Fresh result }
{
    array::from_fn(|i| station(i as u8))
}

impl<R: Rule + Drop> Stage<R> {
    fn open(heap: Global, rule: R) -> Result<Stage<R>, AllocError>
        ensures rule { IfOk result (λ s. s.exchange.rule ≡ rule) }
        ensures opens { IfOk result (λ s. Opens (R.Rule.ruling rule).houses s.exchange.seal s.stations) }
    {
        let houses = rule.houses();
        let table = Table::new(heap, ROWS_EACH * usize::from(houses))?;
        Ok(Stage {
            exchange: Exchange::open(rule, Register::new(houses, table)),
            stations: fresh_stations(),
        })
    }

    // The place of a house's station, where there is such a house.
    fn station_of(&self, house: u16) -> Result<usize, Refusal>
        ensures answer { result ≡ station_place (R.Rule.ruling self.now.exchange.rule).houses house }
        ensures bound { IfOk result (λ at. at < 16) }
    {
        if house < u16::from(self.exchange.rule().houses()) {
            Ok(usize::from(house))
        } else {
            Err(Refusal::StationHouse)
        }
    }

    fn announce(&mut self, at: u16, pages: &[u8]) -> Result<usize, Refusal>
        ensures answer { result ≡ announce_outcome (R.Rule.ruling self.old.exchange.rule) self.old.stations (asking Asked.Announce at pages.now) }
        ensures stations { self.new.stations ≡ announce_stations (R.Rule.ruling self.old.exchange.rule) self.old.stations (asking Asked.Announce at pages.now) }
        ensures exchange { self.new.exchange ≡ self.old.exchange }
    {
        let at = self.station_of(at)?;
        let (number, _) = self
            .exchange
            .announce(&mut self.stations[at], pages)
            .map_err(|refused| refused.refusal)?;
        Ok(usize::from(number))
    }

    fn note(&mut self, at: u16, named: Named, text: &[u8]) -> Result<usize, Refusal>
        ensures answer { result ≡ note_outcome (R.Rule.ruling self.old.exchange.rule) self.old.exchange.seal self.old.stations (asking (Asked.Note named) at text.now) }
        ensures stations { self.new.stations ≡ note_stations (R.Rule.ruling self.old.exchange.rule) self.old.exchange.seal self.old.stations (asking (Asked.Note named) at text.now) }
        ensures rule { self.new.exchange.rule ≡ self.old.exchange.rule }
        ensures register { NoteLeft (R.Rule.ruling self.old.exchange.rule) self.old.exchange.seal self.old.stations (asking (Asked.Note named) at text.now) (station_place (R.Rule.ruling self.old.exchange.rule).houses at) self.new.exchange.seal }
    {
        let at = self.station_of(at)?;
        let row = self.exchange.seal().used();
        let notice = notice_of(named, text);
        let mut seal = [0; 2];
        self.exchange
            .note(&mut self.stations[at], notice, &mut seal)
            .map_err(|refused| refused.refusal)?;
        Ok(row)
    }

    // Adds the receipt of row i if it holds the statement; its seal is the row's number.
    #[tactic(auto, unfolding(seal::specs::Rows::same_statement))]
    fn add_row(
        &self,
        i: usize,
        row: Entry,
        statement: Statement,
        gathering: &mut Gathering,
        memory: &mut [u8],
    ) -> Result<(), Refused>
        requires { i < 65536 }
        ensures { MatchResult result
            (λ _. row_step (R.Rule.ruling self.now.exchange.rule) self.now.exchange.seal statement i (Some row) gathering.old memory.old ≡ Ok (gathering.new, memory.new))
            (λ e. row_step (R.Rule.ruling self.now.exchange.rule) self.now.exchange.seal statement i (Some row) gathering.old memory.old ≡ Err e) }
    {
        if row.statement != statement {
            return Ok(());
        }
        self.exchange.add(gathering, row.house, &seal_of(i), memory)
    }

    // Adds the receipts of all rows that hold the statement, in their order.
    fn gather(
        &self,
        statement: Statement,
        gathering: &mut Gathering,
        memory: &mut [u8],
    ) -> Result<(), Refused>
        ensures { MatchResult result
            (λ _. rows_from (R.Rule.ruling self.now.exchange.rule) self.now.exchange.seal statement (used self.now.exchange.seal) 0 gathering.old memory.old ≡ Ok (gathering.new, memory.new))
            (λ e. rows_from (R.Rule.ruling self.now.exchange.rule) self.now.exchange.seal statement (used self.now.exchange.seal) 0 gathering.old memory.old ≡ Err e) }
    {
        let rows = self.exchange.seal().entries();
        for (i, row) in rows.iter().enumerate() {
            self.add_row(i, *row, statement, gathering, memory)?;
        }
        Ok(())
    }

    // Writes the bundle of all receipts there are, and answers its length.
    fn bundle(&self, notice: Notice, memory: &mut [u8]) -> Result<usize, Refusal>
        ensures bound { IfOk result (λ n. n ≤ length memory.old) }
        ensures answer { MatchResult result
            (λ n. bundle_of (R.Rule.ruling self.now.exchange.rule) self.now.exchange.seal notice.house notice.number notice.digest memory.old ≡ Ok (n, memory.new))
            (λ e. bundle_of (R.Rule.ruling self.now.exchange.rule) self.now.exchange.seal notice.house notice.number notice.digest memory.old ≡ Err e) }
    {
        let mut gathering = self
            .exchange
            .start(notice)
            .map_err(|refused| refused.refusal)?;
        let statement = self.exchange.statement(notice);
        self.gather(statement, &mut gathering, memory)
            .map_err(|refused| refused.refusal)?;
        let closed = self
            .exchange
            .close(gathering)
            .map_err(|(refused, _)| refused.refusal)?;
        self.exchange
            .issue(closed, memory)
            .map_err(|(refused, _)| refused.refusal)
    }

    fn file(&mut self, at: u16, named: Named, text: &[u8]) -> Result<usize, Refusal>
        ensures answer { result ≡ file_outcome (R.Rule.ruling self.old.exchange.rule) self.old.exchange.seal self.old.stations (asking (Asked.File named) at text.now) }
        ensures stations { self.new.stations ≡ file_stations (R.Rule.ruling self.old.exchange.rule) self.old.exchange.seal self.old.stations (asking (Asked.File named) at text.now) }
        ensures exchange { self.new.exchange ≡ self.old.exchange }
    {
        let at = self.station_of(at)?;
        // Fixed memory, lent to the exchange; how much of it is the bundle, issue answers.
        let mut memory = [0; BUNDLE];
        let length = self.bundle(notice_of(named, text), &mut memory)?;
        let filing = self
            .exchange
            .file(&mut self.stations[at], &memory[..length], text)
            .map_err(|refused| refused.refusal)?;
        Ok(usize::from(filing.signers))
    }

    // Runs an event line, or what stands for one that is not ended.
    fn run(&mut self, place: usize, event: Option<Event>) -> Line
        ensures place { result.place ≡ place }
        ensures call { result.call ≡ shown_event (option_map meant event.entry) }
        ensures outcome { Gave (R.Rule.ruling self.old.exchange.rule) self.old.exchange.seal self.old.stations (option_map meant event.entry) result.outcome }
        ensures rule { self.new.exchange.rule ≡ self.old.exchange.rule }
        ensures stations { self.new.stations ≡ stations_after (R.Rule.ruling self.old.exchange.rule) self.old.exchange.seal self.old.stations (option_map meant event.entry) }
        ensures register { Left (R.Rule.ruling self.old.exchange.rule) self.old.exchange.seal self.old.stations (option_map meant event.entry) self.new.exchange.seal }
    {
        let Some(Event { asked, at, text }) = event else {
            return Line {
                place,
                call: Shown::Line,
                outcome: Err(Refusal::BadLine),
            };
        };
        // A match and no table of calls: there are just these three, and they take different things.
        let (call, outcome) = match asked {
            Asked::Announce => (Call::Announce, self.announce(at, text)),
            Asked::Note(named) => (Call::Note, self.note(at, named, text)),
            Asked::File(named) => (Call::File, self.file(at, named, text)),
        };
        Line {
            place,
            call: Shown::Call(call),
            outcome,
        }
    }

    // Runs the event lines in their order.
    fn run_all(&mut self, heap: Global, events: &[u8]) -> Result<Vec<Line>, AllocError>
        ensures { IfOk result (λ v. Ran (R.Rule.ruling self.old.exchange.rule)
            (record { register = self.old.exchange.seal; stations = self.old.stations; rest = events.now })
            (record { register = self.new.exchange.seal; stations = self.new.stations; rest = [] })
            v.items) }
    {
        let mut report = Vec::new(heap);
        for event in (EventLines { rest: events }) {
            let line = self.run(report.len() + 1, event);
            report.push(line)?;
        }
        Ok(report)
    }
}

// Plays the events on an exchange with a rule.
pub(crate) fn play<R: Rule + Drop>(
    heap: Global,
    rule: R,
    events: &[u8],
) -> Result<Vec<Line>, AllocError>
    ensures { IfOk result (λ v. Staged (R.Rule.ruling rule) events.now v.items) }
{
    let mut stage = Stage::open(heap, rule)?;
    stage.run_all(heap, events)
}
