// What a taken file answers.
use edition::Number;
use sha256::Digest;

#[derive(Clone, Copy)]
pub struct Filing {
    // The house that files.
    pub station: u8,
    // The house whose edition it is. With number and digest no Notice: no call takes them on, and the law names them one by one.
    pub house: u8,
    pub number: Number,
    pub digest: Digest,
    // The houses whose receipts the bundle has, house i by bit i.
    pub signers: u16,
}
