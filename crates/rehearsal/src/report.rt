// What a rehearsal reports.
ghost use Rattle.std.specs.Prelude.{◌≡◌, IfOk, Some, string_bytes};
ghost use Rattle.rehearsal.specs.Reports.{word_text, outcome_number, outcome_value, line_text, report_text};

use crate::events::Call;
use refusal::Refusal;
use std::alloc::{AllocError, Global};
use std::fmt;

// The call that a report names.
#[derive(Clone, Copy)]
pub(crate) enum Shown {
    Call(Call),
    // A line that has not the right form.
    Line,
    // The opening, where it is refused.
    Open,
}

impl fmt::Display for Shown {
    ghost output = { λ shown. Some (word_text shown) };

    fn fmt<W: fmt::Write>(&self, f: &mut fmt::Formatter<W>) -> fmt::Result {
        match self {
            Shown::Call(call) => write!(f, "{call}"),
            Shown::Line => write!(f, "line"),
            Shown::Open => write!(f, "open"),
        }
    }
}

#[derive(Clone, Copy)]
pub(crate) struct Line {
    // The place among the event lines, counted from 1.
    pub(crate) place: usize,
    pub(crate) call: Shown,
    // The value that the call gave, or why it was refused.
    pub(crate) outcome: Result<usize, Refusal>,
}

impl Line {
    // The number of the refusal, and 0 where there is none, as the report's lines have it.
    fn refusal(self) -> u8
        ensures { result ≡ outcome_number self.outcome }
    {
        self.outcome.err().map_or(0, |refusal| refusal.number())
    }

    fn value(self) -> usize
        ensures { result ≡ outcome_value self.outcome }
    {
        self.outcome.unwrap_or(0)
    }
}

impl fmt::Display for Line {
    ghost output = { λ x. Some (line_text x) };

    fn fmt<W: fmt::Write>(&self, f: &mut fmt::Formatter<W>) -> fmt::Result {
        write!(
            f,
            "{} {} {} {}",
            self.place,
            self.call,
            self.refusal(),
            self.value()
        )
    }
}

// The names, then the lines.
pub(crate) fn write_report(heap: Global, lines: &[Line]) -> Result<String, AllocError>
    ensures { IfOk result (λ s. string_bytes s ≡ report_text lines.now) }
{
    let mut text = String::from_str(heap, "line call outcome value\n")?;
    for line in lines {
        writeln!(text, "{line}")?;
    }
    Ok(text)
}
