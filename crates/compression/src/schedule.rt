// SPDX-License-Identifier: MPL-2.0
// The message schedule, of which a ring keeps the last sixteen words: W_t stands at place t mod 16.
ghost use Rattle.std.specs.Prelude.{◌≡◌, ℕ, ◌+◌, ◌%◌, ◌<◌, ◌≤◌, min, List};
ghost use Rattle.compression.specs.Compression as fips;
ghost use Rattle.compression.specs.Ring.{put_word, ring};

use crate::word::{small_sigma0, small_sigma1};

#[tactic(auto, unfolding(crate::specs::Compression::mixed, crate::specs::Words::plus))]
fn mixed(a: u32, b: u32, c: u32, d: u32) -> u32
    ensures { result ≡ fips.mixed a b c d }
{
    small_sigma1(a)
        .wrapping_add(b)
        .wrapping_add(small_sigma0(c))
        .wrapping_add(d)
}

// W_t in the place of W_(t-16), which is i = t mod 16.
#[tactic(auto, unfolding(crate::specs::Ring::put_word))]
fn put_word(w: &mut [u32; 16], i: usize)
    requires { i < 16 }
    ensures { w.new ≡ put_word w.old i }
{
    w[i] = mixed(w[(i + 14) % 16], w[(i + 9) % 16], w[(i + 1) % 16], w[i]);
}

// The next sixteen words, each in the place of the one sixteen before it; written out, since a `for` takes 11 % more instructions.
#[tactic(auto, unfolding(crate::specs::Ring::ring))]
fn put_sixteen(w: &mut [u32; 16])
    ensures { w.new ≡ ring w.old 16 }
{
    put_word(w, 0);
    put_word(w, 1);
    put_word(w, 2);
    put_word(w, 3);
    put_word(w, 4);
    put_word(w, 5);
    put_word(w, 6);
    put_word(w, 7);
    put_word(w, 8);
    put_word(w, 9);
    put_word(w, 10);
    put_word(w, 11);
    put_word(w, 12);
    put_word(w, 13);
    put_word(w, 14);
    put_word(w, 15);
}

// After the rounds from t on: the words of the next sixteen rounds, where there are any.
#[tactic(auto, using(crate::proofs::Rings::ring_next))]
pub(crate) fn put_next(w: &mut [u32; 16], t: usize)
    requires { (t % 16 ≡ 0) × (t + 16 ≤ 64) }
    ensures { (m : List ℕ) → w.old ≡ ring m t → w.new ≡ ring m (min (t + 16) 48) }
{
    if t < 48 {
        put_sixteen(w);
    }
}
