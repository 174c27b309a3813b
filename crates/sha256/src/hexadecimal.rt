// Bytes as text.
ghost use Rattle.std.specs.Prelude.{◌≡◌, Some};
ghost use Rattle.sha256.specs.Text.{hex};

use std::fmt;

// Two lower-case digits for each byte.
#[derive(Clone, Copy)]
pub struct Hexadecimal<'a> {
    bytes: &'a [u8],
}

impl<'a> Hexadecimal<'a> {
    pub fn new(bytes: &'a [u8]) -> Hexadecimal<'a>
        ensures { result.bytes.now ≡ bytes.now }
    {
        Hexadecimal { bytes }
    }
}

impl fmt::Display for Hexadecimal<'_> {
    ghost output = { λ x. Some (hex x.bytes.now) };

    #[tactic(auto, using(crate::proofs::Text::hex_none, crate::proofs::Text::written_more))]
    fn fmt<W: fmt::Write>(&self, f: &mut fmt::Formatter<W>) -> fmt::Result {
        for byte in self.bytes.iter().copied() {
            write!(f, "{byte:02x}")?;
        }
        Ok(())
    }
}
