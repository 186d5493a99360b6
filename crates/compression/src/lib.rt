// SPDX-License-Identifier: MPL-2.0
// FIPS 180-4 §6.2.2 for SHA-256: one block into the hash value.
#![tactic(auto)]

mod constants;
mod rounds;
mod schedule;
mod word;

ghost use Rattle.std.specs.Prelude.{◌≡◌};
ghost use Rattle.compression.specs.Compression as fips;

use rounds::{added, all_rounds};

// A hash value, and the working variables: eight words.
#[derive(Clone, Copy)]
pub struct Vars {
    pub a: u32,
    pub b: u32,
    pub c: u32,
    pub d: u32,
    pub e: u32,
    pub f: u32,
    pub g: u32,
    pub h: u32,
}

// The hash value after a block of sixteen words.
#[tactic(auto, unfolding(crate::specs::Compression::compress))]
pub fn compress(v: Vars, block: [u32; 16]) -> Vars
    ensures { result ≡ fips.compress v block }
{
    let mut ring = block;
    added(v, all_rounds(v, &mut ring))
}
