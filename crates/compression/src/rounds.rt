// SPDX-License-Identifier: MPL-2.0
// The sixty-four rounds on the working variables, in four turns. The schedule's words are made between these, sixteen at a time.
ghost use Rattle.std.specs.Prelude.{◌≡◌, ◌+◌, ◌≤◌};
ghost use Rattle.compression.specs.Compression as fips;
ghost use Rattle.compression.specs.Ring.{turn};

use crate::Vars;
use crate::constants::K;
use crate::schedule::put_next;
use crate::word::{big_sigma0, big_sigma1, ch, maj};

#[tactic(auto, unfolding(crate::specs::Compression::T1, crate::specs::Words::plus))]
fn t1(v: Vars, k: u32, w: u32) -> u32
    ensures { result ≡ fips.T1 v k w }
{
    v.h.wrapping_add(big_sigma1(v.e))
        .wrapping_add(ch(v.e, v.f, v.g))
        .wrapping_add(k)
        .wrapping_add(w)
}

#[tactic(auto, unfolding(crate::specs::Compression::T2, crate::specs::Words::plus))]
fn t2(v: Vars) -> u32
    ensures { result ≡ fips.T2 v }
{
    big_sigma0(v.a).wrapping_add(maj(v.a, v.b, v.c))
}

#[tactic(auto, unfolding(crate::specs::Compression::round, crate::specs::Words::plus))]
fn round(v: Vars, k: u32, w: u32) -> Vars
    ensures { result ≡ fips.round v k w }
{
    let x = t1(v, k, w);
    let y = t2(v);
    Vars {
        a: x.wrapping_add(y),
        b: v.a,
        c: v.b,
        d: v.c,
        e: v.d.wrapping_add(x),
        f: v.e,
        g: v.f,
        h: v.g,
    }
}

// Rounds t to t + 15. They are written out, so that no place in the ring is computed: a `for` takes 36 % more instructions.
#[tactic(auto, unfolding(crate::specs::Ring::turn, crate::specs::Constants::K256))]
fn sixteen_rounds(v: Vars, w: &[u32; 16], t: usize) -> Vars
    requires { t + 16 ≤ 64 }
    ensures { result ≡ turn v w.now t 16 }
{
    let x = round(v, K[t], w[0]);
    let x = round(x, K[t + 1], w[1]);
    let x = round(x, K[t + 2], w[2]);
    let x = round(x, K[t + 3], w[3]);
    let x = round(x, K[t + 4], w[4]);
    let x = round(x, K[t + 5], w[5]);
    let x = round(x, K[t + 6], w[6]);
    let x = round(x, K[t + 7], w[7]);
    let x = round(x, K[t + 8], w[8]);
    let x = round(x, K[t + 9], w[9]);
    let x = round(x, K[t + 10], w[10]);
    let x = round(x, K[t + 11], w[11]);
    let x = round(x, K[t + 12], w[12]);
    let x = round(x, K[t + 13], w[13]);
    let x = round(x, K[t + 14], w[14]);
    round(x, K[t + 15], w[15])
}

// All rounds, from the ring of a block's words: a turn of rounds, then the words of the next turn in their places.
#[tactic(auto, unfolding(crate::specs::Ring::ring, crate::specs::Compression::rounds))]
pub(crate) fn all_rounds(v: Vars, w: &mut [u32; 16]) -> Vars
    ensures { result ≡ fips.rounds v (fips.schedule w.old 48) 64 }
{
    let mut x = v;
    for t in (0..64).step_by(16) {
        x = sixteen_rounds(x, w, t);
        put_next(w, t);
    }
    x
}

#[tactic(auto, unfolding(crate::specs::Compression::added, crate::specs::Words::plus))]
pub(crate) fn added(x: Vars, y: Vars) -> Vars
    ensures { result ≡ fips.added x y }
{
    Vars {
        a: x.a.wrapping_add(y.a),
        b: x.b.wrapping_add(y.b),
        c: x.c.wrapping_add(y.c),
        d: x.d.wrapping_add(y.d),
        e: x.e.wrapping_add(y.e),
        f: x.f.wrapping_add(y.f),
        g: x.g.wrapping_add(y.g),
        h: x.h.wrapping_add(y.h),
    }
}
