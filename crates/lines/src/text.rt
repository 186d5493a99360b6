// SPDX-License-Identifier: MPL-2.0
// Text that is put into a buffer at a place: numbers in decimal, and a name with a number. Buffer and place go beside each other, since `hub_list`
// lends the one for C and `put` speaks of both. `Display` with `InlineText` was tried for a line: it took 640 bytes of stack more, where the bar in
// include/hub.h leaves `hub_list` 8, and 1,088 instructions in place of 610; and a formatter promises its text only where each write succeeds.
ghost use Rattle.std.specs.Prelude.{◌≡◌, ◌+◌, ◌≤◌, length};
ghost use Rattle.std.proofs.lemmas.List.Edits.{sets};
ghost use Rattle.lines.specs.Text.{digits, field, named, put_end, put};

use super::digit_count::digit_count;
use octets::bounds::lacks;
use octets::stores::store_bytes;

// The most bytes that a number and the byte after it take.
pub const FIELD: usize = 11;

// Puts the last `count` digits of a number at a place, the last one first.
#[tactic(auto, unfolding(crate::specs::Text::digits))]
fn put_digits(number: u32, count: usize, out: &mut [u8], at: usize)
    requires { at + count ≤ length out.old }
    ensures { out.new ≡ sets out.old at (digits count number) }
{
    let mut rest = number;
    for place in (at..at + count).rev() {
        out[place] = b'0' + (rest % 10) as u8;
        rest /= 10;
    }
}

// Puts a number at a place, and a byte after it; answers the place after that.
#[tactic(auto, using(crate::proofs::Digits::few_digits, crate::proofs::Digits::length_field, crate::proofs::Puts::field_put))]
pub(crate) fn put_field(number: u32, after: u8, out: &mut [u8], at: usize) -> usize
    requires { at + 11 ≤ length out.old }
    ensures upper_bound { result ≤ at + 11 }
    ensures value { result ≡ at + length (field number after) }
    ensures new_out { out.new ≡ sets out.old at (field number after) }
{
    let count = digit_count(number);
    put_digits(number, count, out, at);
    let end = at + count;
    out[end] = after;
    end + 1
}

// Puts the line of a name, which ends in a blank, and a number at a place, and answers the place after it.
#[tactic(auto, using(crate::proofs::Puts::joined), unfolding(crate::specs::Text::named))]
pub(crate) fn put_name(name: &[u8], number: u32, out: &mut [u8], at: usize) -> usize
    requires { at + (length name.now + 11) ≤ length out.old }
    ensures value { result ≡ at + length (named name.now number) }
    ensures new_out { out.new ≡ sets out.old at (named name.now number) }
{
    store_bytes(out, at, name);
    put_field(number, b'\n', out, at + name.len())
}

// The same for a caller that has not looked for room. It needs room for the name and 11 bytes more; where there is less, nothing is put and the place
// itself is the answer. `put_text` and `put_line` begin alike, by one call of `lacks`: a function over what is put would be no plainer.
#[tactic(auto, unfolding(crate::specs::Text::put, crate::specs::Text::put_end))]
pub fn put_named(name: &[u8], number: u32, out: &mut [u8], at: usize) -> usize
    ensures value { result ≡ put_end (length name.now + 11) at (named name.now number) out.old }
    ensures new_out { out.new ≡ put (length name.now + 11) at (named name.now number) out.old }
{
    if lacks(out.len(), at, name.len() + FIELD) {
        return at;
    }
    put_name(name, number, out, at)
}

// Puts a text at a place, and answers the place after it; where there is no room, nothing is put and the place itself is the answer.
#[tactic(auto, unfolding(crate::specs::Text::put, crate::specs::Text::put_end))]
pub fn put_text(text: &[u8], out: &mut [u8], at: usize) -> usize
    ensures value { result ≡ put_end (length text.now) at text.now out.old }
    ensures new_out { out.new ≡ put (length text.now) at text.now out.old }
{
    if lacks(out.len(), at, text.len()) {
        return at;
    }
    store_bytes(out, at, text);
    at + text.len()
}
