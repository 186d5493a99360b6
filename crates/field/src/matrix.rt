// SPDX-License-Identifier: MPL-2.0
// InvMixColumns (FIPS 197, 5.3.3) of one column, as a word, without a table: it is for the round keys, which are few. Where it stands in a loop the
// compiler does four columns at a time.
ghost use Rattle.std.specs.Prelude.{◌≡◌};
ghost use Rattle.field.specs.Field.{mul};
ghost use Rattle.field.specs.Words.{word, byte_at, each, unmixed_word};

// Each byte of a word times x: where an eighth digit comes out, 0x1b is added.
#[tactic(auto, unfolding(crate::specs::Xor::xor), using(crate::proofs::Each::doubled))]
fn double(x: u32) -> u32
    ensures { result ≡ each (mul 2) x }
{
    let eighth = x & 0x80808080;
    ((x & 0x7f7f7f7f) * 2) ^ ((eighth - eighth / 128) & 0x1b1b1b1b)
}

// The word whose first byte is the second of x, and so on: RotWord() of 5.2.
#[tactic(auto, using(crate::proofs::Each::up1))]
pub fn up1(x: u32) -> u32
    ensures { result ≡ word (byte_at x 1) (byte_at x 2) (byte_at x 3) (byte_at x 0) }
{
    x.rotate_right(8)
}

// The column times the inverse matrix (5.3.3): 9 is 8 + 1, 11 is 9 + 2, 13 is 9 + 4, 14 is 8 + 4 + 2.
#[tactic(auto, unfolding(crate::specs::Xor::xor, crate::specs::Words::unmixed_word), using(crate::proofs::Each::column_by))]
pub fn unmix(x: u32) -> u32
    ensures { result ≡ unmixed_word x }
{
    let x2 = double(x);
    let x4 = double(x2);
    let x8 = double(x4);
    let x9 = x8 ^ x;
    (x8 ^ x4 ^ x2) ^ (x9 ^ x2).rotate_right(8) ^ (x9 ^ x4).rotate_right(16) ^ x9.rotate_right(24)
}
