// Comparison in a time that does not depend on the bytes.
ghost use Rattle.std.specs.Prelude.{◌≡◌, map, length, Decides, fold, bit_or, bit_xor};
ghost use Rattle.std.specs.List.{zip};

// The bits in which any two bytes of the same place differ. It goes over all the bytes, wherever they differ: an early exit would tell a forger how much of a guess was right.
fn difference(a: &[u8], b: &[u8]) -> u8
    ensures { result ≡ fold (λ d x. bit_or d x) 0 (map (λ p. bit_xor p.0 p.1) (zip a.now b.now)) }
{
    a.iter()
        .zip(b)
        .map(|(x, y)| x ^ y)
        .fold(0, |diff, bits| diff | bits)
}

// Whether the two are equal.
pub(crate) fn same_bytes(a: &[u8], b: &[u8]) -> bool
    requires { length a.now ≡ length b.now }
    ensures { Decides result (a.now ≡ b.now) }
{
    difference(a, b) == 0
}
