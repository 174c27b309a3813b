// The steps from the pages to the bundle, each with its line.
ghost use Rattle.std.specs.Prelude.{◌≡◌, IfOk};
ghost use Rattle.seal.specs.Registers.{register, used};

use crate::stop::Stop;
use exchange::{Closed, Exchange, Notice, Station};
use seal::{Register, Seal, Table};
use sha256::Hexadecimal;
use std::alloc::Global;
use witness::Rotating;

const HOUSES: u8 = 4;

// How many of the houses may misbehave.
const FAULTS: u8 = 1;

// The house whose edition it is.
const AUTHOR: u8 = 0;

// So many houses, from house 0 on, give receipts: as many as the rule needs.
const WITNESSES: usize = 3;

// A seal for each house.
const ROWS: usize = 4;

const SEAL_BYTES: usize = Register::LEN;

// A bundle of three receipts takes 46 bytes.
const BUNDLE_ROOM: usize = 64;

type FourHouses = Exchange<Rotating, Register>;

// The seals of the witnesses, in the order of their houses.
type Seals = [[u8; SEAL_BYTES]; WITNESSES];

pub fn opened(heap: Global) -> Result<FourHouses, Stop>
    ensures rule { IfOk result (λ x. (x.rule.houses.count ≡ 4) × (x.rule.houses.faults ≡ 1)) }
    ensures register { IfOk result (λ x. (register.houses x.seal ≡ 4) × (used x.seal ≡ 0)) }
{
    let rule = Rotating::open(HOUSES, FAULTS)?;
    let register = Register::open(HOUSES, Table::new(heap, ROWS)?)?;
    Ok(Exchange::open(rule, register))
}

fn note_all(
    rt: &HostRuntime,
    exchange: &mut FourHouses,
    stations: &mut [Station; WITNESSES],
    notice: Notice,
) -> Result<Seals, Stop> {
    let mut seals = [[0; SEAL_BYTES]; WITNESSES];
    for (station, seal) in stations.iter_mut().zip(&mut seals) {
        exchange.note(station, notice, seal)?;
        println!(rt; "note {} {}", station.house(), Hexadecimal::new(seal))?;
    }
    Ok(seals)
}

// Leaves the receipts in the memory, one after the other.
fn gather(
    rt: &HostRuntime,
    exchange: &FourHouses,
    notice: Notice,
    seals: &Seals,
    memory: &mut [u8],
) -> Result<Closed, Stop> {
    let mut gathering = exchange.start(notice)?;
    println!(rt; "start {} {}", notice.house, notice.number)?;
    for (house, seal) in (0..).zip(seals) {
        exchange.add(&mut gathering, house, seal, memory)?;
        println!(rt; "add {house}")?;
    }
    let closed = exchange.close(gathering)?;
    println!(rt; "close taken")?;
    Ok(closed)
}

pub fn certify(rt: &HostRuntime, exchange: &mut FourHouses, pages: &[u8]) -> Result<(), Stop> {
    let mut stations = [Station::open(0)?, Station::open(1)?, Station::open(2)?];
    let (number, digest) = exchange.announce(&mut stations[usize::from(AUTHOR)], pages)?;
    println!(rt; "announce {AUTHOR} {number} {digest}")?;
    let notice = Notice {
        house: AUTHOR,
        number,
        digest,
    };
    let seals = note_all(rt, exchange, &mut stations, notice)?;
    // Fixed memory, lent to the exchange; how much of it is the bundle, issue answers.
    let mut memory = [0; BUNDLE_ROOM];
    let closed = gather(rt, exchange, notice, &seals, &mut memory)?;
    let length = exchange.issue(closed, &mut memory)?;
    println!(rt; "issue {length}")?;
    let bundle = memory.get(..length).unwrap_or(&memory);
    println!(rt; "bundle {}", Hexadecimal::new(bundle))?;
    Ok(())
}
