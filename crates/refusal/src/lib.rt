// The closed list of refusals, each with its number and its text, and a refusal with its place.
#![tactic(auto)]

ghost use Rattle.std.specs.Prelude.{◌≡◌, Some, Ok, Decides};
ghost use Rattle.refusal.specs.Numbers.{number_of, KnownByNumber};
ghost use Rattle.refusal.specs.Places.{refused_text};
ghost use Rattle.refusal.specs.Questions.{ask, at_receipt, whole};
ghost use Rattle.refusal.specs.Texts.{text_of};

use std::error::Error;
use std::fmt;
use std::num::NonZeroU8;

#[derive(Clone, Copy, Debug, PartialEq, Eq)]
pub enum Refusal {
    // The number of houses is not from 1 to 16.
    HouseCount = 1,
    // Three times the tolerated faults, plus one, is more than the number of houses.
    TooManyFaults = 2,
    // The register's rows, or the key bytes, do not fit the number of houses.
    SealMemory = 3,
    // The station's house is not one of the houses.
    StationHouse = 4,
    // The house has announced its last number.
    NumbersUsedUp = 5,
    // Four announced editions of the house are not filed yet.
    WindowFull = 6,
    // The pages are longer than 16,777,216 bytes.
    PagesTooLong = 7,
    // There is no such house.
    NoSuchHouse = 8,
    // The number is 0 or is filed already.
    NumberPast = 9,
    // The number is too far ahead of the last one filed.
    NumberAhead = 10,
    // The house is not named as a witness.
    NotNamed = 11,
    // This digest is noted already.
    AlreadyNoted = 12,
    // Another digest is noted for this house and number.
    OtherDigestNoted = 13,
    // The house has no seal left.
    NoSealLeft = 14,
    // The memory is too small for what is to be written.
    MemoryTooSmall = 15,
    // The house's receipt is there already.
    ReceiptRepeated = 16,
    // The seal does not have the right length.
    SealLength = 17,
    // The seal does not check.
    SealFails = 18,
    // The rule does not accept the set of houses.
    NotAccepted = 19,
    // The bundle is shorter than its head.
    BundleTooShort = 20,
    // The bundle's mark is another rule's.
    OtherRule = 21,
    // The bundle's digest is not that of the pages.
    OtherPages = 22,
    // The bundle's length does not fit its number of receipts.
    BundleLength = 23,
    // The input line does not have the right form.
    BadLine = 24,
}

// No two refusals have one number.
#[tactic(auto, using(crate::proofs::Numbers::same_number))]
pub fn numbers_tell_refusals_apart()
    ensures { KnownByNumber }
{}

impl Refusal {
    // The number by which it is known outside the program.
    pub fn number(self) -> u8
        ensures { result ≡ number_of self }
    {
        self as u8
    }

    // Whether two refusals are one: what `==` answers, said outright.
    pub fn same(self, other: Refusal) -> bool
        ensures { Decides result (self ≡ other) }
    {
        self == other
    }

    // Refuses, unless a question is answered by yes.
    pub fn unless(self, yes: bool) -> Result<(), Refusal>
        ensures { result ≡ ask yes self (Ok tt) }
    {
        if yes { Ok(()) } else { Err(self) }
    }

    // What is wrong, as a sentence. By hand, since a derived text would have no contract.
    fn text(self) -> &'static str
        ensures { result.now ≡ text_of self }
    {
        match self {
            Self::HouseCount => "the number of houses is not from 1 to 16",
            Self::TooManyFaults => "the houses are not more than three times the tolerated faults",
            Self::SealMemory => "the register's rows or key bytes do not fit the number of houses",
            Self::StationHouse => "the station's house is not one of the houses",
            Self::NumbersUsedUp => "the house has announced its last number",
            Self::WindowFull => "four announced editions of the house are not filed yet",
            Self::PagesTooLong => "the pages are longer than 16,777,216 bytes",
            Self::NoSuchHouse => "there is no such house",
            Self::NumberPast => "the number is 0 or is filed already",
            Self::NumberAhead => "the number is too far ahead of the last one filed",
            Self::NotNamed => "the house is not named as a witness",
            Self::AlreadyNoted => "this digest is noted already",
            Self::OtherDigestNoted => "another digest is noted for this house and number",
            Self::NoSealLeft => "the house has no seal left",
            Self::MemoryTooSmall => "the memory is too small for what is to be written",
            Self::ReceiptRepeated => "the house's receipt is there already",
            Self::SealLength => "the seal does not have the right length",
            Self::SealFails => "the seal does not check",
            Self::NotAccepted => "the rule does not accept the set of houses",
            Self::BundleTooShort => "the bundle is shorter than its head",
            Self::OtherRule => "the bundle's mark is another rule's",
            Self::OtherPages => "the bundle's digest is not that of the pages",
            Self::BundleLength => "the bundle's length does not fit its number of receipts",
            Self::BadLine => "the input line does not have the right form",
        }
    }
}

impl fmt::Display for Refusal {
    ghost output = { λ x. Some (text_of x) };

    fn fmt<W: fmt::Write>(&self, f: &mut fmt::Formatter<W>) -> fmt::Result {
        f.write_str(self.text())
    }
}

impl Error for Refusal {}

// A refusal, and the place of the receipt that it fell on, counted from 1, if it fell on one.
#[derive(Clone, Copy, PartialEq, Eq, Debug)]
pub struct Refused {
    pub refusal: Refusal,
    pub place: Option<NonZeroU8>,
}

impl Refused {
    // A refusal that fell on no receipt.
    pub fn new(refusal: Refusal) -> Refused
        ensures { result ≡ whole refusal }
    {
        Refused {
            refusal,
            place: None,
        }
    }

    // A refusal that fell on the receipt at a place, counted from 1; at place 0 there is none.
    #[tactic(auto, using(crate::proofs::Places::own_place))]
    pub fn at(refusal: Refusal, place: u8) -> Refused
        ensures { result ≡ at_receipt refusal place }
    {
        Refused {
            refusal,
            place: NonZeroU8::new(place),
        }
    }
}

// So that `?` takes a refusal for one that fell on no receipt.
impl From<Refusal> for Refused {
    ghost from_gives = { λ x y. y ≡ whole x };

    fn from(value: Refusal) -> Refused {
        Refused::new(value)
    }
}

// As `refused 18 at receipt 3`, or `refused 19` where it fell on no receipt.
impl fmt::Display for Refused {
    ghost output = { λ x. Some (refused_text x) };

    fn fmt<W: fmt::Write>(&self, f: &mut fmt::Formatter<W>) -> fmt::Result {
        let number = self.refusal.number();
        match self.place {
            None => write!(f, "refused {number}"),
            Some(place) => write!(f, "refused {number} at receipt {place}"),
        }
    }
}

impl Error for Refused {}

#[cfg(test)]
mod tests {
    use super::*;
    use std::test::Fail;

    #[test]
    fn first_and_last_number(rt: HostRuntime) {
        assert_eq!(rt; Refusal::HouseCount.number(), 1);
        assert_eq!(rt; Refusal::BadLine.number(), 24);
    }

    #[test]
    fn text_of_a_refusal(rt: HostRuntime) -> Result<(), Fail> {
        let text = Refusal::SealFails.to_string(rt.alloc())?;
        assert_eq!(rt; text.as_str(), "the seal does not check");
        Ok(())
    }

    #[test]
    fn text_with_and_without_a_place(rt: HostRuntime) -> Result<(), Fail> {
        let whole = Refused::new(Refusal::NotAccepted).to_string(rt.alloc())?;
        assert_eq!(rt; whole.as_str(), "refused 19");
        let at = Refused::at(Refusal::SealFails, 3).to_string(rt.alloc())?;
        assert_eq!(rt; at.as_str(), "refused 18 at receipt 3");
        Ok(())
    }
}
