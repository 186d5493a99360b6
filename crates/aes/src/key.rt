// SPDX-License-Identifier: MPL-2.0
// Key expansion (FIPS 197, 5.2).
ghost use Rattle.std.specs.Prelude.{◌≡◌};
ghost use Rattle.field.specs.Field.{xtime};
ghost use Rattle.field.specs.Sbox.{sbox};
ghost use Rattle.field.specs.Words.{each};
ghost use Rattle.aes.specs.Words.{bytes_of};
ghost use Rattle.aes.specs.Key.{next_key, expand_key};

use super::columns::{State, bytes_of, words};
use field::matrix::up1;
use field::tables::substitute;

// A byte times x in the field.
#[tactic(auto, unfolding(field::specs::Field::xtime, field::specs::Xor::xor))]
fn double(b: u8) -> u8
    ensures { result ≡ xtime b }
{
    let w = u16::from(b);
    ((w * 2) ^ (w / 128 * 0x11b)) as u8
}

// The substitute of each byte of a word: SubWord().
#[tactic(auto, unfolding(field::specs::Words::each))]
fn sub_word(w: u32) -> u32
    ensures { result ≡ each sbox w }
{
    let [a, b, c, d] = w.to_le_bytes();
    u32::from_le_bytes([substitute(a), substitute(b), substitute(c), substitute(d)])
}

// The round key after k, by the round constant c: to the first word SubWord() of RotWord() of the last one and c are added, to each other the new
// word before it.
fn next_key(k: State, c: u8) -> State
    ensures { bytes_of result ≡ next_key (bytes_of k) c }
{
    let turned = up1(k.d);
    let x = k.a ^ sub_word(turned) ^ u32::from(c);
    let y = k.b ^ x;
    let z = k.c ^ y;
    State {
        a: x,
        b: y,
        c: z,
        d: k.d ^ z,
    }
}

// The eleven round keys of a key.
pub fn expand_key(key: [u8; 16]) -> [[u8; 16]; 11]
    ensures { result ≡ expand_key key }
{
    let mut keys = [key; 11];
    let mut k = words(key);
    let mut c: u8 = 1;
    for n in 0..10 {
        k = next_key(k, c);
        keys[n + 1] = bytes_of(k);
        c = double(c);
    }
    keys
}
