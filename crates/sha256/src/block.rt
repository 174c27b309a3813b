// The compression of one block: the schedule is worked out sixteen words ahead of the rounds, so that the two overlap.
ghost use Rattle.std.specs.Prelude.{◌≡◌, ◌+◌, ◌<◌, take, slice_set};
ghost use Rattle.sha256.specs.declared.state.State.{State};
ghost use Rattle.sha256.specs.Schedule.{words, next, scheduled};
ghost use Rattle.sha256.specs.Compression.{round, rounds, added, compressed};

use crate::constants::K;
use crate::functions::{choose, lower_sigma, majority, upper_sigma};
use crate::state::State;

fn load(w: &mut [u32; 64], block: &[u8; 64])
    ensures { take 16 w.new ≡ words 16 block.now }
{
    let (words, _) = block.as_chunks::<4>();
    for (i, bytes) in words.iter().enumerate() {
        w[i] = u32::from_be_bytes(*bytes);
    }
}

fn ahead(w: &mut [u32; 64], t: usize)
    requires { t < 48 }
    ensures { w.new ≡ slice_set w.old (t + 16) (next w.old t) }
{
    let recent = lower_sigma::<17, 19, 10>(w[t + 14]).wrapping_add(w[t + 9]);
    w[t + 16] = recent
        .wrapping_add(lower_sigma::<7, 18, 3>(w[t + 1]))
        .wrapping_add(w[t]);
}

fn step(s: State, k: u32, w: u32) -> State
    ensures { result ≡ round s k w }
{
    let t1 = s
        .h
        .wrapping_add(upper_sigma::<6, 11, 25>(s.e))
        .wrapping_add(choose(s.e, s.f, s.g))
        .wrapping_add(k)
        .wrapping_add(w);
    let t2 = upper_sigma::<2, 13, 22>(s.a).wrapping_add(majority(s.a, s.b, s.c));
    State {
        a: t1.wrapping_add(t2),
        b: s.a,
        c: s.b,
        d: s.c,
        e: s.d.wrapping_add(t1),
        f: s.e,
        g: s.f,
        h: s.g,
    }
}

fn add(s: State, v: State) -> State
    ensures { result ≡ added s v }
{
    State {
        a: s.a.wrapping_add(v.a),
        b: s.b.wrapping_add(v.b),
        c: s.c.wrapping_add(v.c),
        d: s.d.wrapping_add(v.d),
        e: s.e.wrapping_add(v.e),
        f: s.f.wrapping_add(v.f),
        g: s.g.wrapping_add(v.g),
        h: s.h.wrapping_add(v.h),
    }
}

// The first 48 rounds, and with each the word of the schedule that stands 16 ahead.
// An index and no iterator over w, since each turn reads the word at t and writes the one at t + 16.
fn early_rounds(start: State, w: &mut [u32; 64]) -> State
    ensures schedule { w.new ≡ scheduled 48 (take 16 w.old) }
    ensures state { result ≡ rounds 48 start (scheduled 48 (take 16 w.old)) }
{
    let mut s = start;
    for t in 0..48 {
        ahead(w, t);
        s = step(s, K[t], w[t]);
    }
    s
}

// The last 16 rounds, on what the first 48 gave.
fn late_rounds(early: State, w: &[u32; 64]) -> State
    ensures { (start : State) → early ≡ rounds 48 start w.now → result ≡ rounds 64 start w.now }
{
    let mut s = early;
    for (k, word) in K[48..].iter().zip(&w[48..]) {
        s = step(s, *k, *word);
    }
    s
}

pub(crate) fn compress(start: State, block: &[u8; 64]) -> State
    ensures { result ≡ compressed start block.now }
{
    let mut w = [0; 64];
    load(&mut w, block);
    let early = early_rounds(start, &mut w);
    add(start, late_rounds(early, &w))
}
