// The digest as a value: four 64-bit words.
ghost use Rattle.std.specs.Prelude.{◌≡◌, Decides};

// The eight 32-bit words of the hash in pairs, the first of a pair the more significant. Two digests are equal where their words are.
#[derive(Clone, Copy, PartialEq, Eq)]
pub struct Digest {
    pub words: [u64; 4],
}

impl Digest {
    // Whether two digests are one: what `==` answers, said outright.
    pub fn same(self, other: Digest) -> bool
        ensures { Decides result (self ≡ other) }
    {
        self == other
    }
}
