// SPDX-License-Identifier: MPL-2.0
// The rounds of the cipher and of its inverse (FIPS 197, 5.1 and 5.3), once for both: by tables.
//
// A round looks up four words for each column: SubBytes, ShiftRows and MixColumns in one. The table holds each word twice over, so that a
// lower row reads it turned, at the cost of no rotation. The last round has no MixColumns and takes bytes.
// The way back is the same with the other tables, once InvMixColumns was applied to the round keys (FIPS 197, 5.3.5): it is linear.
// Row m of a column comes from the column m places before it. That is the inverse's order; the cipher has its columns the other way round. So the
// words of both stay in registers: with the cipher's in the order a b c d within the loop 16 KiB took 649,793 instructions, by valgrind, for 611,900.
ghost use Rattle.std.specs.Prelude.{◌≡◌, ◌<◌, ℕ};
ghost use Rattle.field.specs.Sbox.{sbox, inv_sbox};
ghost use Rattle.field.specs.Words as words;
ghost use Rattle.aes.specs.Words.{rows_added, substituted, round_words, last_words, rounds_left};

use super::columns::State;
use field::tables::{mixing, substitute, unmixing, unsubstitute};

// A direction: what its rounds look up.
pub(crate) trait Direction {
    ghost of_byte: { ℕ → ℕ };

    ghost of_word: { ℕ → ℕ };

    // The substitute of a byte.
    fn byte(x: u8) -> u8
        ensures { result ≡ of_byte x };

    // What a byte in the first row adds to its column, twice over.
    fn word(x: u8) -> u64
        ensures { result ≡ of_word x };
}

// The cipher.
pub(crate) struct Forth;

impl Direction for Forth {
    ghost of_byte = { sbox };

    ghost of_word = { words.mixes };

    fn byte(x: u8) -> u8 {
        substitute(x)
    }

    fn word(x: u8) -> u64 {
        mixing(x)
    }
}

// Its inverse.
pub(crate) struct Back;

impl Direction for Back {
    ghost of_byte = { inv_sbox };

    ghost of_word = { words.unmixes };

    fn byte(x: u8) -> u8 {
        unsubstitute(x)
    }

    fn word(x: u8) -> u64 {
        unmixing(x)
    }
}

// The word that stands m bytes below the top of a word twice over.
fn turned(x: u64, m: usize) -> u32
    requires { m < 4 }
    ensures { result ≡ words.turned x m }
{
    ((x >> (32 - 8 * m)) % 4294967296) as u32
}

// A column of a round: what a, b, c and d have in its four rows is looked up and added to the word of the round key.
#[tactic(auto, unfolding(crate::specs::Words::rows_added, field::specs::Xor::xor))]
fn column<D: Direction>(a: u32, b: u32, c: u32, d: u32, k: u32) -> u32
    ensures { result ≡ rows_added D.of_word a b c d k }
{
    k ^ turned(D::word(a.to_le_bytes()[0]), 0)
        ^ turned(D::word(b.to_le_bytes()[1]), 1)
        ^ turned(D::word(c.to_le_bytes()[2]), 2)
        ^ turned(D::word(d.to_le_bytes()[3]), 3)
}

// A round.
#[tactic(auto, unfolding(crate::specs::Words::round_words))]
fn round<D: Direction>(s: State, k: State) -> State
    ensures { result ≡ round_words D.of_word s k }
{
    State {
        a: column::<D>(s.a, s.d, s.c, s.b, k.a),
        b: column::<D>(s.b, s.a, s.d, s.c, k.b),
        c: column::<D>(s.c, s.b, s.a, s.d, k.c),
        d: column::<D>(s.d, s.c, s.b, s.a, k.d),
    }
}

// A column of the last round, but for the round key.
#[tactic(auto, unfolding(crate::specs::Words::substituted))]
fn last_column<D: Direction>(a: u32, b: u32, c: u32, d: u32) -> u32
    ensures { result ≡ substituted D.of_byte a b c d }
{
    u32::from_le_bytes([
        D::byte(a.to_le_bytes()[0]),
        D::byte(b.to_le_bytes()[1]),
        D::byte(c.to_le_bytes()[2]),
        D::byte(d.to_le_bytes()[3]),
    ])
}

// The last round.
#[tactic(auto, unfolding(crate::specs::Words::last_words, field::specs::Xor::xor))]
fn last_round<D: Direction>(s: State, k: State) -> State
    ensures { result ≡ last_words D.of_byte s k }
{
    State {
        a: last_column::<D>(s.a, s.d, s.c, s.b) ^ k.a,
        b: last_column::<D>(s.b, s.a, s.d, s.c) ^ k.b,
        c: last_column::<D>(s.c, s.b, s.a, s.d) ^ k.c,
        d: last_column::<D>(s.d, s.c, s.b, s.a) ^ k.d,
    }
}

// All rounds on four words, to which the first key was added: round key n is added where n more rounds come. The hint keeps them within the loop of a
// chain, though they have more callers: without it 16 KiB took 622,007 instructions to decrypt, by valgrind, with it 584,165.
#[inline(always)]
pub(crate) fn crypt<D: Direction>(keys: &[State; 11], begun: State) -> State
    ensures { result ≡ rounds_left D.of_word D.of_byte keys.now 9 begun }
{
    let mut s = begun;
    for n in (0..9).rev() {
        s = round::<D>(s, keys[n + 1]);
    }
    last_round::<D>(s, keys[0])
}
