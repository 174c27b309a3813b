// Reading a bundle: its head parted, and its receipts as parts of the bundle itself.
ghost use Rattle.std.specs.Prelude.{◌≡◌, ◌+◌, ◌<◌, ◌≤◌, length, MatchOption};
ghost use Rattle.exchange.specs.Layout.{head_length, word_at, bundle_statement, bundle_count, receipt_at, receipt_house, receipt_seal};

use crate::layout::receipt_at;
use edition::Number;
use seal::Statement;
use sha256::Digest;

// A bundle's statement and the count of its receipts.
#[derive(Clone, Copy)]
pub struct Head {
    pub statement: Statement,
    pub count: u8,
}

// A receipt in a bundle, with its place counted from 1.
#[derive(Clone, Copy)]
pub struct Receipt<'a> {
    pub place: usize,
    pub house: u8,
    pub seal: &'a [u8],
}

fn word(bytes: &[u8; 8]) -> u64
    ensures { result ≡ word_at bytes.now 0 }
{
    u64::from_be_bytes(*bytes)
}

// The head of a bundle, or nothing where the bundle is shorter than a head. No `From` of arrays for its parts: the borrow checker
// does not cover a part of an array behind a reference, and through slices that would be this text again.
pub fn part_head(bundle: &[u8]) -> Option<Head>
    ensures { MatchOption result (length bundle.now < head_length) (λ h. (head_length ≤ length bundle.now) × (h.statement ≡ bundle_statement bundle.now) × (h.count ≡ bundle_count bundle.now)) }
{
    let [mark, house, high, low, rest @ ..] = bundle else {
        return None;
    };
    let (words, _) = rest.as_chunks::<8>();
    let [first, second, third, fourth, ..] = words else {
        return None;
    };
    let count = *rest.get(32)?;
    let statement = Statement {
        mark: *mark,
        house: *house,
        number: Number::from_be_bytes([*high, *low]),
        digest: Digest {
            words: [word(first), word(second), word(third), word(fourth)],
        },
    };
    Some(Head { statement, count })
}

// The longest seal that a kind may have.
const MOST_SEAL: usize = 2048;

// The receipt at a place, places counted from 0, or nothing where it does not lie whole in the bundle, or seals are too long.
pub fn read_receipt(bundle: &[u8], size: usize, place: u8) -> Option<Receipt<'_>>
    ensures { MatchOption result (size ≤ 2048 → length bundle.now < receipt_at size (place + 1)) (λ x. (size ≤ 2048) × (receipt_at size (place + 1) ≤ length bundle.now) × (x.place ≡ place + 1) × (x.house ≡ receipt_house size bundle.now place) × (x.seal.now ≡ receipt_seal size bundle.now place)) }
{
    if size > MOST_SEAL {
        return None;
    }
    let at = receipt_at(size, u16::from(place));
    if bundle.len() < at + 1 + size {
        return None;
    }
    Some(Receipt {
        place: usize::from(place) + 1,
        house: bundle[at],
        seal: &bundle[at + 1..at + 1 + size],
    })
}
