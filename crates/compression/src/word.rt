// SPDX-License-Identifier: MPL-2.0
// FIPS 180-4 §4.1.2: SHA-256's functions of words.
ghost use Rattle.std.specs.Prelude.{◌≡◌};
ghost use Rattle.compression.specs.Words.{Ch, Maj, Σ0, Σ1, σ0, σ1};

// Where x has a 1, the bit of y, else that of z: one operation fewer than as the standard writes it.
#[tactic(auto, using(crate::proofs::Bitwise::ch_by))]
pub(crate) fn ch(x: u32, y: u32, z: u32) -> u32
    ensures { result ≡ Ch x y z }
{
    z ^ (x & (y ^ z))
}

// The bit that two of the three have; x ^ y is the next round's y ^ z.
#[tactic(auto, using(crate::proofs::Bitwise::maj_by))]
pub(crate) fn maj(x: u32, y: u32, z: u32) -> u32
    ensures { result ≡ Maj x y z }
{
    ((x ^ y) & (y ^ z)) ^ y
}

// By 2, by 2 + 11 and by 2 + 11 + 9. Nested, the rotations take one copy of x for three: a rotation overwrites what it turns.
#[tactic(auto, using(crate::proofs::Rotations::big_sigma0_by))]
pub(crate) fn big_sigma0(x: u32) -> u32
    ensures { result ≡ Σ0 x }
{
    (x ^ (x ^ x.rotate_right(9)).rotate_right(11)).rotate_right(2)
}

// As the standard writes it, side by side: the next round waits for this one.
#[tactic(auto, using(crate::proofs::Rotations::big_sigma1_by))]
pub(crate) fn big_sigma1(x: u32) -> u32
    ensures { result ≡ Σ1 x }
{
    x.rotate_right(6) ^ x.rotate_right(11) ^ x.rotate_right(25)
}

// The rotations by 7 and by 7 + 11.
#[tactic(auto, using(crate::proofs::Rotations::small_sigma0_by))]
pub(crate) fn small_sigma0(x: u32) -> u32
    ensures { result ≡ σ0 x }
{
    (x ^ x.rotate_right(11)).rotate_right(7) ^ (x >> 3)
}

// The rotations by 17 and by 17 + 2.
#[tactic(auto, using(crate::proofs::Rotations::small_sigma1_by))]
pub(crate) fn small_sigma1(x: u32) -> u32
    ensures { result ≡ σ1 x }
{
    (x ^ x.rotate_right(2)).rotate_right(17) ^ (x >> 10)
}
