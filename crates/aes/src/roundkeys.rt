// SPDX-License-Identifier: MPL-2.0
// The round keys as the rounds take them: as words, number n where n more rounds come (FIPS 197, 5.2 and 5.3.5).
ghost use Rattle.std.specs.Prelude.{◌≡◌, ◌<◌, List, [], get_or, map};
ghost use Rattle.aes.specs.State.{Block, Keys, inv_mix_columns};
ghost use Rattle.aes.specs.Words.{bytes_of, reversed_bytes};
ghost use Rattle.aes.specs.Cipher.{keys_back, eq_key, eq_keys};

use super::columns::{State, reversed_words, words};
use field::matrix::unmix;
use std::array;

// Those of the cipher.
pub(crate) fn key_words(keys: [[u8; 16]; 11]) -> [State; 11]
    ensures { map reversed_bytes result ≡ keys_back keys }
{
    array::from_fn(|n| reversed_words(keys[10 - n]))
}

// InvMixColumns of a round key.
#[tactic(auto, using(crate::proofs::Lookups::unmixed_key))]
fn unmixed(k: State) -> State
    ensures { bytes_of result ≡ inv_mix_columns (bytes_of k) }
{
    State {
        a: unmix(k.a),
        b: unmix(k.b),
        c: unmix(k.c),
        d: unmix(k.d),
    }
}

// Round key n of EqInvCipher(): the first and the last are as they were.
fn inverse_key(keys: &[[u8; 16]; 11], n: usize) -> State
    requires { n < 11 }
    ensures key { bytes_of result ≡ eq_key keys.now n }
    ensures is_block { Block (get_or keys.now n []) }
{
    match n {
        0 => words(keys[0]),
        10 => words(keys[10]),
        _ => unmixed(words(keys[n])),
    }
}

// Those of EqInvCipher(). The keys are blocks, as its callers cite.
pub(crate) fn inverse_words(keys: &[[u8; 16]; 11]) -> [State; 11]
    ensures words { map bytes_of result ≡ eq_keys keys.now }
    ensures are_blocks { Keys keys.now }
{
    array::from_fn(|n| inverse_key(keys, n))
}
