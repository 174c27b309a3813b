// The library for C programs: what the crate bodunkwa answers, under the names that include/bodunkwa.h declares.
// Each function stands twice, since C takes its names from a static library, and Rattle code its functions from another.
#![tactic(auto)]

ghost use Rattle.std.specs.Prelude.{◌≡◌};
ghost use Rattle.bodunkwa.specs.Answers.{number, digest_answer, digest_memory, StampChecks, OneWhere};

// The digest of the pages, in the first 32 bytes of the memory: 0 when it is done, 7 where the pages are
// out of bounds, else 15 where the memory is too small. A number, since C has no Result.
#[unsafe(no_mangle)]
pub extern "C" fn bodunkwa_digest(pages: &[u8], memory: &mut [u8]) -> u32
    ensures answer { result ≡ number (digest_answer pages.now memory.old) }
    ensures memory { memory.new ≡ digest_memory pages.now memory.old }
{
    bodunkwa::bodunkwa_digest(pages, memory)
}

// Whether a stamp checks: 1 for yes, 0 for no. A number, as the header declares it.
#[unsafe(no_mangle)]
pub extern "C" fn bodunkwa_stamp_checks(key: &[u8], statement: &[u8], stamp: &[u8]) -> u32
    ensures { OneWhere (StampChecks key.now statement.now stamp.now) result }
{
    bodunkwa::bodunkwa_stamp_checks(key, statement, stamp)
}
