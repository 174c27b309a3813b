// What C programs are answered; the crate bodunkwa_c gives them these functions by name, and include/bodunkwa.h declares them, parameter by parameter.
#![tactic(auto)]

ghost use Rattle.std.specs.Prelude.{◌≡◌, Decides};
ghost use Rattle.bodunkwa.specs.Answers.{number, digest_answer, digest_memory, StampChecks, OneWhere};

use edition::admit;
use hmac::PreparedKey;
use refusal::Refusal;
use seal::{KEY_BYTES, STATEMENT_BYTES};
use sha256::digest;

// The bytes of a digest.
const DIGEST_BYTES: usize = 32;

// Writes the digest of the pages to the front of the memory.
fn write_digest(pages: &[u8], memory: &mut [u8]) -> Result<(), Refusal>
    ensures answer { result ≡ digest_answer pages.now memory.old }
    ensures memory { memory.new ≡ digest_memory pages.now memory.old }
{
    admit(pages.len())?;
    let front = memory
        .first_chunk_mut::<DIGEST_BYTES>()
        .ok_or(Refusal::MemoryTooSmall)?;
    *front = digest(pages).bytes();
    Ok(())
}

// The digest of the pages, in the first 32 bytes of the memory: 0 when it is done, 7 where the pages are
// out of bounds, else 15 where the memory is too small. A number, since C has no Result.
pub fn bodunkwa_digest(pages: &[u8], memory: &mut [u8]) -> u32
    ensures answer { result ≡ number (digest_answer pages.now memory.old) }
    ensures memory { memory.new ≡ digest_memory pages.now memory.old }
{
    write_digest(pages, memory).map_or_else(|refusal| u32::from(refusal.number()), |()| 0)
}

// Whether the stamp is the statement's under the key. Every wrong length is a no; that of the stamp is asked with its bytes.
fn checks(key: &[u8], statement: &[u8], stamp: &[u8]) -> bool
    ensures { Decides result (StampChecks key.now statement.now stamp.now) }
{
    key.len() == KEY_BYTES
        && statement.len() == STATEMENT_BYTES
        && PreparedKey::new(key).checks(statement, stamp)
}

// Whether a stamp checks: 1 for yes, 0 for no. A number, as the header declares it.
pub fn bodunkwa_stamp_checks(key: &[u8], statement: &[u8], stamp: &[u8]) -> u32
    ensures { OneWhere (StampChecks key.now statement.now stamp.now) result }
{
    u32::from(checks(key, statement, stamp))
}
