// An edition of a house as it is announced: what witnesses acknowledge.
use edition::Number;
use sha256::Digest;

#[derive(Clone, Copy, PartialEq)]
pub struct Notice {
    // The house whose edition it is.
    pub house: u8,
    pub number: Number,
    pub digest: Digest,
}
