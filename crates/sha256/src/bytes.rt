// A digest's 32 bytes, and the text that is printed of it.
ghost use Rattle.std.specs.Prelude.{◌≡◌, ◌<◌, Some};
ghost use Rattle.sha256.specs.Text.{hex_digit, digest_bytes, digest_text};

use crate::value::Digest;
use std::fmt;

// A hexadecimal digit, in lower case.
fn digit(n: u8) -> u8
    requires { n < 16 }
    ensures { result ≡ hex_digit n }
{
    if n < 10 { b'0' + n } else { b'a' + (n - 10) }
}

impl Digest {
    // The 32 bytes, each word's most significant first.
    #[tactic(auto, using(crate::proofs::Digests::four_words))]
    pub fn bytes(self) -> [u8; 32]
        ensures { result ≡ digest_bytes self }
    {
        let mut bytes = [0; 32];
        bytes.copy_from_slice(self.words.map(u64::to_be_bytes).as_flattened());
        bytes
    }

    // The 64 lower-case hexadecimal digits. By places, and no `map` of the bytes, nor `{:02x}` or `{:016x}`: those take four times as long and more.
    fn text(self) -> [u8; 64]
        ensures { result ≡ digest_text self }
    {
        let bytes = self.bytes();
        let mut text = [0; 64];
        for i in 0..32 {
            text[2 * i] = digit(bytes[i] / 16);
            text[2 * i + 1] = digit(bytes[i] % 16);
        }
        text
    }
}

impl fmt::Display for Digest {
    ghost output = { λ d. Some (digest_text d) };

    fn fmt<W: fmt::Write>(&self, f: &mut fmt::Formatter<W>) -> fmt::Result {
        match std::str::from_utf8(&self.text()) {
            Ok(text) => f.write_str(text),
            Err(_) => Err(fmt::Error),
        }
    }
}
