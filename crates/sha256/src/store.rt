// SPDX-License-Identifier: MPL-2.0
// Numbers written as bytes, the highest first: a padding's length, a digest's words.
ghost use Rattle.std.specs.Prelude.{◌≡◌, ◌<◌, ◌≤◌, ◌+◌, ◌^◌, length, replicate};
ghost use Rattle.std.proofs.lemmas.List.Edits.{sets};
ghost use Rattle.sha256.specs.Digests.{zeros, padding, bytes_of};

use compression::Vars;

// Bytes put over those at a place.
#[tactic(auto, using(crate::proofs::Stores::put_by))]
fn put(out: &mut [u8], at: usize, bytes: &[u8])
    requires { at + length bytes.now ≤ length out.old }
    ensures { out.new ≡ sets out.old at bytes.now }
{
    out[at..at + bytes.len()].copy_from_slice(bytes);
}

// How many zeros stand in the padding of a message of `total` bytes.
fn zeros_of(total: usize) -> usize
    ensures { (result ≡ zeros total) × (result < 64) }
{
    (119 - total % 64) % 64
}

// The padding of a message of `total` bytes, put over zeros. A lent array is not copied on its way back.
#[tactic(auto, using(crate::proofs::Stores::be_bytes64, crate::proofs::Stores::padding_by))]
pub(crate) fn put_padding(room: &mut [u8; 72], total: usize) -> &[u8]
    requires { (room.old ≡ replicate 72 0) × (total < 2 ^ 61) }
    ensures { (result.now ≡ padding total) × (length result.now ≤ 72) }
{
    let zeros = zeros_of(total);
    room[0] = 0x80;
    put(room, 1 + zeros, &(8 * total as u64).to_be_bytes());
    &room[..9 + zeros]
}

// The thirty-two bytes of a hash value.
#[tactic(auto, unfolding(crate::specs::Digests::bytes_of), using(crate::proofs::Stores::be_bytes32))]
pub(crate) fn bytes_of(v: Vars) -> [u8; 32]
    ensures { result ≡ bytes_of v }
{
    let mut d = [0; 32];
    put(&mut d, 0, &v.a.to_be_bytes());
    put(&mut d, 4, &v.b.to_be_bytes());
    put(&mut d, 8, &v.c.to_be_bytes());
    put(&mut d, 12, &v.d.to_be_bytes());
    put(&mut d, 16, &v.e.to_be_bytes());
    put(&mut d, 20, &v.f.to_be_bytes());
    put(&mut d, 24, &v.g.to_be_bytes());
    put(&mut d, 28, &v.h.to_be_bytes());
    d
}
