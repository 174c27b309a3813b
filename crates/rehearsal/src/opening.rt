// The limits of an input, and its first three lines.
ghost use Rattle.std.specs.Prelude.{◌≡◌, ◌≤◌, length, Some, None, MatchOption};
ghost use Rattle.std.specs.Result.{result_ok};
ghost use Rattle.rehearsal.specs.Openings.{rule_of, line_count, are_names, begin, numbers_of, opening_of};

use crate::fields::{LINE_END, SPACE, cut, number};

// The most bytes that an input may have.
pub const MOST_INPUT: usize = 65_536;

const MOST_EVENTS: usize = 1000;

// Which rule the exchange is opened with.
#[derive(Clone, Copy)]
pub(crate) enum Mark {
    All,
    Rotating,
}

#[derive(Clone, Copy)]
pub(crate) struct Opening<'a> {
    pub(crate) houses: u16,
    pub(crate) faults: u16,
    pub(crate) mark: Mark,
    // What follows the third line.
    pub(crate) events: &'a [u8],
}

// A number that is no rule's mark.
#[derive(Clone, Copy)]
pub(crate) struct UnknownMark;

impl TryFrom<u16> for Mark {
    type Error = UnknownMark;

    ghost try_from_gives = { λ number r. result_ok r ≡ rule_of number };

    fn try_from(number: u16) -> Result<Mark, UnknownMark> {
        match number {
            1 => Ok(Mark::All),
            2 => Ok(Mark::Rotating),
            _ => Err(UnknownMark),
        }
    }
}

// How many lines there are, one without its end included.
#[tactic(auto, unfolding(crate::specs::Openings::line_count, crate::specs::Openings::end_count))]
fn lines(bytes: &[u8]) -> usize
    requires { length bytes.now ≤ 65536 }
    ensures { result ≡ line_count bytes.now }
{
    let ends = bytes.iter().filter(|byte| **byte == LINE_END).count();
    match bytes.last() {
        Some(byte) if *byte != LINE_END => ends + 1,
        _ => ends,
    }
}

// Whether the first and the third line are the names of what stands below them.
fn are_names(first: &[u8], third: &[u8]) -> bool
    ensures { result ≡ are_names first.now third.now }
{
    first == b"houses bad rule".as_slice() && third == b"call at house number text".as_slice()
}

// The numbers of the second line, with the events that are to follow.
#[tactic(auto, unfolding(crate::specs::Openings::numbers_of))]
fn read_numbers<'a>(line: &[u8], events: &'a [u8]) -> Option<Opening<'a>>
    ensures { MatchOption result (numbers_of line.now events.now ≡ None) (λ o. numbers_of line.now events.now ≡ Some (begin o)) }
{
    let (first, rest) = cut(line, SPACE)?;
    let (second, third) = cut(rest, SPACE)?;
    let houses = number(first)?;
    let faults = number(second)?;
    let rule = number(third)?;
    let mark = Mark::try_from(rule).ok()?;
    Some(Opening {
        houses,
        faults,
        mark,
        events,
    })
}

// The opening of an input, nothing where the input is past a limit or one of the three lines has not its form.
#[tactic(auto, unfolding(crate::specs::Openings::opening_of))]
pub(crate) fn read_opening(input: &[u8]) -> Option<Opening<'_>>
    ensures { MatchOption result (opening_of input.now ≡ None) (λ o. opening_of input.now ≡ Some (begin o)) }
{
    if input.len() > MOST_INPUT {
        return None;
    }
    let (first, rest) = cut(input, LINE_END)?;
    let (second, rest) = cut(rest, LINE_END)?;
    let (third, events) = cut(rest, LINE_END)?;
    if lines(events) > MOST_EVENTS {
        return None;
    }
    if !are_names(first, third) {
        return None;
    }
    read_numbers(second, events)
}
