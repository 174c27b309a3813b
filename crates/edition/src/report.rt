// What the program `digest` says of an edition's pages.
use sha256::Digest;

#[derive(Clone, Copy)]
pub struct Report {
    // How many bytes the pages have.
    pub bytes: usize,
    // How many blocks of 512 bits were hashed, padding included.
    pub blocks: usize,
    pub digest: Digest,
}
