// One row of a station, and the slots of the numbers after its last.
ghost use Rattle.std.specs.Prelude.{◌≡◌, ◌+◌, ◌-◌, ◌==◌, Ok, nat_le, nat_lt};
ghost use Rattle.refusal.specs.Questions.{ask};
ghost use Rattle.refusal.specs.declared.Refusal.TheVariants.{NumberPast, NumberAhead};
ghost use Rattle.exchange.specs.Stations.{free_of_other, filed_row};

use crate::station::Row;
use edition::Number;
use refusal::Refusal;
use sha256::Digest;

// How far a house may be ahead of what is filed of it.
pub(crate) const WINDOW: Number = 4;

// Whether a slot is empty, or holds this very digest.
pub(crate) fn free_of_other(slot: Option<Digest>, digest: Digest) -> bool
    ensures { result ≡ free_of_other slot digest }
{
    slot.is_none_or(|noted| noted == digest)
}

impl Row {
    // Which slot is the number's; refused where it has none: filed already, or too far ahead.
    pub(crate) fn place_of(&self, number: Number) -> Result<usize, Refusal>
        ensures { result ≡ ask (nat_lt self.now.last number) NumberPast (ask (nat_le number (self.now.last + 4)) NumberAhead (Ok (number - self.now.last - 1))) }
    {
        Refusal::NumberPast.unless(number > self.last)?;
        Refusal::NumberAhead.unless(number - self.last <= WINDOW)?;
        Ok(usize::from(number - self.last - 1))
    }

    // Refused unless the number is the one after the last that is filed.
    pub(crate) fn is_next(&self, number: Number) -> Result<(), Refusal>
        ensures { result ≡ ask (nat_lt self.now.last number) NumberPast (ask (number == self.now.last + 1) NumberAhead (Ok tt)) }
    {
        Refusal::NumberAhead.unless(self.place_of(number)? == 0)
    }

    // The next number is filed, which its one caller has asked by is_next: the slots move down by one, and the fourth is empty.
    pub(crate) fn file(&mut self, number: Number)
        requires { number ≡ self.old.last + 1 }
        ensures { self.new ≡ filed_row self.old }
    {
        let [_, second, third, fourth] = self.slots;
        self.last = number;
        self.slots = [second, third, fourth, None];
    }
}
