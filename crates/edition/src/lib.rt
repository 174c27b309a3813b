// What an edition is: its number, its pages with their bound, and a report of their digest.
#![tactic(auto)]

ghost use Rattle.std.specs.Prelude.{◌≡◌, ◌≤◌, length, Some};
ghost use Rattle.edition.specs.Pages.{admitted, most_bytes};
ghost use Rattle.edition.specs.Reports.{reported, report_text};
ghost use Rattle.sha256.specs.Padding.{blocks, padded};

mod report;

use refusal::{Refusal, Refused};
pub use report::Report;
use sha256::digest;
use std::fmt;

// An edition's number, from 1 on. The one place that names its width, with the constant below.
// A plain integer: number 0 can be asked about, and is refused.
pub type Number = u16;

// The last number that an edition can have.
pub const LAST_NUMBER: Number = 65_535;

// The most bytes that an edition's pages may have.
pub const MOST_BYTES: usize = 16_777_216;

// Whether pages of a length are within bounds.
pub fn admit(length: usize) -> Result<(), Refusal>
    ensures { result ≡ admitted length }
{
    Refusal::PagesTooLong.unless(length <= MOST_BYTES)
}

// How many blocks are hashed, the padded end included.
#[tactic(auto, using(sha256::proofs::Padding::padded_blocks))]
fn blocks_hashed(pages: &[u8]) -> usize
    requires { length pages.now ≤ most_bytes }
    ensures { result ≡ blocks (padded pages.now) }
{
    (pages.len() + 8) / 64 + 1
}

// The report of some pages, or the refusal of pages out of bounds.
pub fn report_on(pages: &[u8]) -> Result<Report, Refused>
    ensures { result ≡ reported pages.now }
{
    let bytes = pages.len();
    admit(bytes)?;
    Ok(Report {
        bytes,
        blocks: blocks_hashed(pages),
        digest: digest(pages),
    })
}

// A line each: bytes, blocks, digest.
impl fmt::Display for Report {
    ghost output = { λ x. Some (report_text x) };

    fn fmt<W: fmt::Write>(&self, f: &mut fmt::Formatter<W>) -> fmt::Result {
        let bytes = self.bytes;
        let blocks = self.blocks;
        let digest = self.digest;
        write!(f, "bytes {bytes}\nblocks {blocks}\ndigest {digest}")
    }
}
