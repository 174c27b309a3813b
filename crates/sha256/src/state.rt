// The eight 32-bit words that the hash carries from block to block, and the working variables of a block's rounds.
// By name and in no array, as in the standard: each has its own part in a round.
#[derive(Clone, Copy)]
pub struct State {
    pub a: u32,
    pub b: u32,
    pub c: u32,
    pub d: u32,
    pub e: u32,
    pub f: u32,
    pub g: u32,
    pub h: u32,
}
