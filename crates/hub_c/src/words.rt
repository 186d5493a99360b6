// SPDX-License-Identifier: MPL-2.0
// Answers of several numbers, written as words of 64 bits.
ghost use Rattle.std.specs.Prelude.{◌≡◌, ◌∷◌, [], get_or, length};
ghost use Rattle.std.proofs.lemmas.List.Edits.{sets};
ghost use Rattle.laws.specs.Rows.{refusal_in};
ghost use Rattle.writer.specs.Answers.{wrote};
ghost use Rattle.hub_c.specs.Answered.{said_words};

use joining::answer::Said;
use wire::refusals::Refused;
use writer::Wrote;

// The number of a call that was lent a buffer of the wrong size, or given a word too wide for its field.
pub(crate) const WRONG_BUFFER: u32 = 255;

// The greatest numbers that have room in a field of one byte, and of two.
pub(crate) const MOST_BYTE: u64 = 255;

pub(crate) const MOST_SHORT: u64 = 65535;

// The words of a place, of an answer and of a piece.
pub(crate) const PLACE: usize = 3;

pub(crate) const ANSWER: usize = 3;

pub(crate) const PIECE: usize = 3;

// Fills the whole of a buffer with bytes, as many as it has.
pub(crate) fn fill(out: &mut [u8], bytes: &[u8])
    requires { length bytes.now ≡ length out.old }
    ensures { out.new ≡ bytes.now }
{
    out.copy_from_slice(bytes);
}

// The word at a place; past the end it counts as 0.
pub(crate) fn word(s: &[u64], at: usize) -> u64
    ensures { result ≡ get_or s.now at 0 }
{
    if at < s.len() { s[at] } else { 0 }
}

// Puts a word; one past the end is dropped.
pub(crate) fn put_word(out: &mut [u64], at: usize, x: u64)
    ensures { out.new ≡ sets out.old at (x ∷ []) }
{
    if at < out.len() {
        out[at] = x;
    }
}

// Puts the one word of a length.
pub(crate) fn put_length(out: &mut [u64], x: u64)
    requires { length out.old ≡ 1 }
    ensures { out.new ≡ x ∷ [] }
{
    put_word(out, 0, x);
}

// The number of the refusal that an answer is, 0 for none.
pub(crate) fn refusal_in<T>(answer: &Result<T, Refused>) -> u32
    ensures { result ≡ refusal_in answer.now }
{
    match answer {
        Ok(_) => 0,
        Err(refused) => u32::from(refused.number()),
    }
}

// Hands out what a writer answers: the length, and the refusal's number.
pub(crate) fn hand_length(written: Result<usize, Refused>, out: &mut [u64]) -> u32
    requires { length out.old ≡ 1 }
    ensures value { result ≡ (wrote written).refusal }
    ensures new_out { out.new ≡ (wrote written).size ∷ [] }
{
    let answer = Wrote::from(written);
    put_length(out, answer.size as u64);
    answer.refusal as u32
}

// Puts three words from a place on.
pub(crate) fn put_three(out: &mut [u64], at: u32, a: u64, b: u64, c: u64)
    ensures { out.new ≡ sets out.old at (a ∷ b ∷ c ∷ []) }
{
    let from = at as usize;
    put_word(out, from, a);
    put_word(out, from + 1, b);
    put_word(out, from + 2, c);
}

// Puts two words from a place on; over a slice of words it would be a loop, and no plainer.
pub(crate) fn put_two(out: &mut [u64], at: u32, a: u64, b: u64)
    ensures { out.new ≡ sets out.old at (a ∷ b ∷ []) }
{
    let from = at as usize;
    put_word(out, from, a);
    put_word(out, from + 1, b);
}

// Puts the three words of a buffer that has no more.
pub(crate) fn put_triple(out: &mut [u64], a: u64, b: u64, c: u64)
    requires { length out.old ≡ 3 }
    ensures { out.new ≡ a ∷ b ∷ c ∷ [] }
{
    put_three(out, 0, a, b, c);
}

// Hands out what a step answers, in either role: kind, value, detail, and the refusal's number.
pub(crate) fn hand_said(said: Said, out: &mut [u64]) -> u32
    requires { length out.old ≡ 3 }
    ensures value { result ≡ said.refusal }
    ensures new_out { out.new ≡ said_words said }
{
    put_triple(out, said.kind, said.value, said.detail);
    u32::from(said.refusal)
}
