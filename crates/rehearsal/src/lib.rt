// Rehearsals: a list of calls played on a small exchange, and the report of what each gave.
#![tactic(auto)]

ghost use Rattle.std.specs.Prelude.{◌≡◌, IfOk, MatchResult, Some, Err, string_bytes};
ghost use Rattle.refusal.specs.declared.Refusal.{Refusal as Reason};
ghost use Rattle.witness.specs.Opening.{opened};
ghost use Rattle.rehearsal.specs.Openings.{begin, opening_refusal};
ghost use Rattle.rehearsal.specs.Playing.{LinesOpened, Reports, Staged};
ghost use Rattle.rehearsal.specs.Reports.{open_lines, report_text};

mod events;
mod fields;
mod opening;
mod report;
mod staging;

use fields::capped;
pub use opening::MOST_INPUT;
use opening::{Mark, Opening, read_opening};
use refusal::Refusal;
use report::{Line, Shown, write_report};
use staging::play;
use std::alloc::{AllocError, Global};
use witness::{All, Rotating, Rule};

// The one line of a rehearsal whose opening is refused.
fn not_opened(heap: Global, refusal: Refusal) -> Result<Vec<Line>, AllocError>
    ensures { IfOk result (λ v. v.items ≡ open_lines refusal) }
{
    let line = Line {
        place: 1,
        call: Shown::Open,
        outcome: Err(refusal),
    };
    Ok(vec![in heap; line]?)
}

// Plays the events by a rule, unless its numbers were refused.
fn staged<R: Rule + Drop>(
    heap: Global,
    rule: Result<R, Refusal>,
    events: &[u8],
) -> Result<Vec<Line>, AllocError>
    ensures { IfOk result (λ v. MatchResult rule (λ rule. Staged (R.Rule.ruling rule) events.now v.items) (λ refusal. v.items ≡ open_lines refusal)) }
{
    match rule {
        Ok(rule) => play(heap, rule, events),
        Err(refusal) => not_opened(heap, refusal),
    }
}

// Opens the rule of the mark and plays the events.
fn played(heap: Global, opening: Opening) -> Result<Vec<Line>, AllocError>
    ensures { IfOk result (λ v. LinesOpened (begin opening.entry) (opened opening.entry.houses opening.entry.faults) v.items) }
{
    let houses = capped(opening.houses);
    let faults = capped(opening.faults);
    // A match and no table of rules: each arm opens a rule of another type, and there are no other marks.
    match opening.mark {
        Mark::All => staged(heap, All::open(houses, faults), opening.events),
        Mark::Rotating => staged(heap, Rotating::open(houses, faults), opening.events),
    }
}

// The whole report of an input: what each event line gave, upon what the lines before it left. By the exchange's law, file lines taken
// for one house and number have texts of one digest, and the numbers filed at one house of another are 1, 2, 3 and so on.
#[tactic(auto, using(crate::proofs::Running::refusal_told))]
pub fn rehearse(heap: Global, input: &[u8]) -> Result<String, AllocError>
    ensures refused { IfOk result (λ s. (e : Reason) → opening_refusal input.now ≡ Some e → string_bytes s ≡ report_text (open_lines e)) }
    ensures reports { IfOk result (λ s. Reports input.now (string_bytes s)) }
{
    let lines = match read_opening(input) {
        Some(opening) => played(heap, opening)?,
        None => not_opened(heap, Refusal::BadLine)?,
    };
    write_report(heap, lines.as_slice())
}
