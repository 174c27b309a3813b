// The six functions of the rounds and of the schedule.
ghost use Rattle.std.specs.Prelude.{◌≡◌, ◌<◌};
ghost use Rattle.sha256.specs.Words.{IsRotation};
ghost use Rattle.sha256.specs.Functions.{ch, maj, Σ, σ};

pub(crate) fn choose(x: u32, y: u32, z: u32) -> u32
    ensures { result ≡ ch x y z }
{
    (x & y) ^ (!x & z)
}

// Two operations fewer than the standard's form, and equal to it.
#[tactic(auto, using(crate::proofs::Majority::maj_short))]
pub(crate) fn majority(x: u32, y: u32, z: u32) -> u32
    ensures { result ≡ maj x y z }
{
    (x & y) | (z & (x | y))
}

// The two sums of the rounds: Σ0 is upper_sigma::<2, 13, 22>, and Σ1 is upper_sigma::<6, 11, 25>.
pub(crate) fn upper_sigma<const A: u32, const B: u32, const C: u32>(x: u32) -> u32
    requires { IsRotation A × IsRotation B × IsRotation C }
    ensures { result ≡ Σ A B C x }
{
    x.rotate_right(A) ^ x.rotate_right(B) ^ x.rotate_right(C)
}

// The two sums of the schedule: σ0 is lower_sigma::<7, 18, 3>, and σ1 is lower_sigma::<17, 19, 10>.
pub(crate) fn lower_sigma<const A: u32, const B: u32, const N: u32>(x: u32) -> u32
    requires { IsRotation A × IsRotation B × (N < 32) }
    ensures { result ≡ σ A B N x }
{
    x.rotate_right(A) ^ x.rotate_right(B) ^ (x >> N)
}
