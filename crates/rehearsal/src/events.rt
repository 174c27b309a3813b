// What an event line says.
ghost use Rattle.std.specs.Prelude.{◌≡◌, true, false, Some, None, MatchOption};
ghost use Rattle.std.specs.Result.{result_ok};
ghost use Rattle.rehearsal.specs.Events.{call_text, call_of_word, fitting, asked_call, asked_house, asked_number, meant, event_of};

use crate::fields::{SPACE, cut, is_text, number};
use edition::Number;
use std::fmt;

#[derive(Clone, Copy)]
pub(crate) enum Call {
    Announce,
    Note,
    File,
}

impl fmt::Display for Call {
    ghost output = { λ call. Some (call_text call) };

    fn fmt<W: fmt::Write>(&self, f: &mut fmt::Formatter<W>) -> fmt::Result {
        f.write_str(match self {
            Call::Announce => "announce",
            Call::Note => "note",
            Call::File => "file",
        })
    }
}

// The house whose edition it is, and the edition's number.
#[derive(Clone, Copy)]
pub(crate) struct Named {
    pub(crate) house: u16,
    pub(crate) number: Number,
}

// A call with what it names.
#[derive(Clone, Copy)]
pub(crate) enum Asked {
    // Of the station's own house and its next number, so it names neither.
    Announce,
    Note(Named),
    File(Named),
}

#[derive(Clone, Copy)]
pub(crate) struct Event<'a> {
    pub(crate) asked: Asked,
    // The house whose station is used.
    pub(crate) at: u16,
    pub(crate) text: &'a [u8],
}

// A word that is no call's.
#[derive(Clone, Copy)]
pub(crate) struct UnknownCall;

impl<'a> TryFrom<&'a [u8]> for Call {
    type Error = UnknownCall;

    ghost try_from_gives = { λ word r. result_ok r ≡ call_of_word word.now };

    fn try_from(word: &'a [u8]) -> Result<Call, UnknownCall> {
        match word {
            b"announce" => Ok(Call::Announce),
            b"note" => Ok(Call::Note),
            b"file" => Ok(Call::File),
            _ => Err(UnknownCall),
        }
    }
}

impl Asked {
    // What a call asks. A line has 0 for the house and for the number that an announce does not name.
    fn of(call: Call, house: u16, number: Number) -> Option<Asked>
        ensures { MatchOption result (fitting call house number ≡ false) (λ a. (fitting call house number ≡ true) × (asked_call a ≡ call) × (asked_house a ≡ house) × (asked_number a ≡ number)) }
    {
        let named = Named { house, number };
        match call {
            Call::Announce if house == 0 && number == 0 => Some(Asked::Announce),
            Call::Announce => None,
            Call::Note => Some(Asked::Note(named)),
            Call::File => Some(Asked::File(named)),
        }
    }
}

// The event of a line, given without its end; nothing where the line has not the right form.
#[tactic(auto, unfolding(crate::specs::Events::event_of))]
pub(crate) fn parse(line: &[u8]) -> Option<Event<'_>>
    ensures { MatchOption result (event_of line.now ≡ None) (λ e. event_of line.now ≡ Some (meant e)) }
{
    // Cuts, and no `splitn`: five calls of `next` are no shorter, and say less of what is left.
    let (first, rest) = cut(line, SPACE)?;
    let (second, rest) = cut(rest, SPACE)?;
    let (third, rest) = cut(rest, SPACE)?;
    let (fourth, text) = cut(rest, SPACE)?;
    let call = Call::try_from(first).ok()?;
    let at = number(second)?;
    let house = number(third)?;
    let number = number(fourth)?;
    let asked = Asked::of(call, house, number)?;
    if !is_text(text) {
        return None;
    }
    Some(Event { asked, at, text })
}
