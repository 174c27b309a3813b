// Lines, and the fields of a line.
ghost use Rattle.std.specs.Prelude.{◌≡◌, [], ◌∷◌, ◌<◌, ◌==◌, min, length, position, IfSome, Some, None, MatchOption};
ghost use Rattle.rehearsal.specs.Fields.{cut_at, read_on, zero_in_front, number_of_field, all_printable, text_field};

pub(crate) const LINE_END: u8 = b'\n';

pub(crate) const SPACE: u8 = b' ';

// The most bytes that a text may have.
const MOST_TEXT: usize = 64;

// Where a byte first stands.
fn place_of(bytes: &[u8], byte: u8) -> Option<usize>
    ensures { result ≡ position (λ x. x == byte) bytes.now }
{
    bytes.iter().position(|x| *x == byte)
}

// What stands before the first such byte, and what after it.
#[tactic(auto, using(crate::proofs::Steps::cut_none, crate::proofs::Steps::cut_parts))]
pub(crate) fn cut(bytes: &[u8], byte: u8) -> Option<(&[u8], &[u8])>
    ensures parts { MatchOption result (cut_at bytes.now byte ≡ None) (λ p. cut_at bytes.now byte ≡ Some (p.0.now, p.1.now)) }
    ensures shorter { IfSome result (λ p. length p.1.now < length bytes.now) }
{
    let place = place_of(bytes, byte)?;
    Some((&bytes[..place], &bytes[place + 1..]))
}

// A number with one more digit after it.
fn with_digit(value: u16, byte: u8) -> Option<u16>
    ensures { result ≡ read_on value (byte ∷ []) }
{
    if !byte.is_ascii_digit() {
        return None;
    }
    value.checked_mul(10)?.checked_add(u16::from(byte - b'0'))
}

// The number that digits are, which may begin with 0, if it is not too large.
// No `try_fold`: its contract says what each call gave, and the check finds no proof of what all of them come to. No `parse`: it takes a `+`.
#[tactic(auto, using(crate::proofs::Steps::read_step, crate::proofs::Steps::read_end))]
fn digits(field: &[u8]) -> Option<u16>
    ensures { result ≡ read_on 0 field.now }
{
    let mut value = 0;
    for byte in field {
        value = with_digit(value, *byte)?;
    }
    Some(value)
}

// Whether a 0 stands in front of something.
fn leads_with_zero(field: &[u8]) -> bool
    ensures { result ≡ zero_in_front field.now }
{
    field.len() > 1 && field[0] == b'0'
}

// The number that a field is.
#[tactic(auto, unfolding(crate::specs::Fields::number_of_field))]
pub(crate) fn number(field: &[u8]) -> Option<u16>
    ensures { result ≡ number_of_field field.now }
{
    if field.is_empty() || leads_with_zero(field) {
        return None;
    }
    digits(field)
}

// Whether each byte is printable and no space.
fn is_printable(field: &[u8]) -> bool
    ensures { result ≡ all_printable field.now }
{
    field.iter().all(u8::is_ascii_graphic)
}

// Whether a field is a text.
#[tactic(auto, unfolding(crate::specs::Fields::text_field))]
pub(crate) fn is_text(field: &[u8]) -> bool
    ensures { result ≡ text_field field.now }
{
    !field.is_empty() && field.len() <= MOST_TEXT && is_printable(field)
}

// A number as a byte. No house and no number of faults comes near 255, so what is larger is refused as 255 is.
pub(crate) fn capped(number: u16) -> u8
    ensures { result ≡ min number 255 }
{
    u8::try_from(number).unwrap_or(u8::MAX)
}
