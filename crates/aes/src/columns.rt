// SPDX-License-Identifier: MPL-2.0
// The state as four words, a column to each, its first byte the lowest.
ghost use Rattle.std.specs.Prelude.{◌≡◌};
ghost use Rattle.aes.specs.Words.{bytes_of, sum, reversed, reversed_bytes};

#[derive(Clone, Copy)]
pub struct State {
    pub a: u32,
    pub b: u32,
    pub c: u32,
    pub d: u32,
}

// The sixteen bytes of a block as four words.
pub(crate) fn words(k: [u8; 16]) -> State
    ensures { bytes_of result ≡ k }
{
    State {
        a: u32::from_le_bytes([k[0], k[1], k[2], k[3]]),
        b: u32::from_le_bytes([k[4], k[5], k[6], k[7]]),
        c: u32::from_le_bytes([k[8], k[9], k[10], k[11]]),
        d: u32::from_le_bytes([k[12], k[13], k[14], k[15]]),
    }
}

// The sixteen bytes of four words.
pub(crate) fn bytes_of(s: State) -> [u8; 16]
    ensures { result ≡ bytes_of s }
{
    let [a0, a1, a2, a3] = s.a.to_le_bytes();
    let [b0, b1, b2, b3] = s.b.to_le_bytes();
    let [c0, c1, c2, c3] = s.c.to_le_bytes();
    let [d0, d1, d2, d3] = s.d.to_le_bytes();
    [
        a0, a1, a2, a3, b0, b1, b2, b3, c0, c1, c2, c3, d0, d1, d2, d3,
    ]
}

// The sum of the words: AddRoundKey.
#[tactic(auto, unfolding(field::specs::Xor::xor))]
pub(crate) fn add(s: State, k: State) -> State
    ensures { result ≡ sum s k }
{
    State {
        a: s.a ^ k.a,
        b: s.b ^ k.b,
        c: s.c ^ k.c,
        d: s.d ^ k.d,
    }
}

// The words the other way round, the last column first.
fn reversed(s: State) -> State
    ensures { result ≡ reversed s }
{
    State {
        a: s.d,
        b: s.c,
        c: s.b,
        d: s.a,
    }
}

// The sixteen bytes of a block as four words, the last column first.
pub(crate) fn reversed_words(k: [u8; 16]) -> State
    ensures { reversed_bytes result ≡ k }
{
    reversed(words(k))
}

// The sixteen bytes of four words, of which the last column is the first.
pub(crate) fn reversed_bytes(s: State) -> [u8; 16]
    ensures { result ≡ reversed_bytes s }
{
    bytes_of(reversed(s))
}
