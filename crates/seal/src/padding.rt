// SPDX-License-Identifier: MPL-2.0
// The plain text of a sealed part, and the test of its size and padding:
//
//     | size, 4 bytes | payload, size bytes | padding, each byte the number of padding bytes |
//
ghost use Rattle.std.specs.Prelude.{◌≡◌, ◌≤◌, ◌-◌, not, drop, replicate};
ghost use Rattle.laws.specs.Same.{same};
ghost use Rattle.seal.specs.Padding.{padding, sealed_size, bad_blocks};

use octets::numbers::number32;

// How many bytes the sealed part of a payload of n bytes has: size and payload, up to whole blocks. No size wraps.
#[tactic(auto, unfolding(crate::specs::Padding::sealed_size, crate::specs::Padding::padding))]
pub fn sealed_size(size: u32) -> usize
    ensures { result ≡ sealed_size size }
{
    (4 + size as usize).next_multiple_of(16)
}

// How many padding bytes follow a payload of n bytes.
#[tactic(auto, unfolding(crate::specs::Padding::sealed_size, crate::specs::Padding::padding))]
pub(crate) fn padding(size: u32) -> u8
    ensures { (result ≡ padding size) × (result ≤ 16) }
{
    (sealed_size(size) - 4 - size as usize) as u8
}

// Whether a byte from this place on is another. All sixteen are looked at: the place is a secret, and decides no address and no branch here. That
// there is another byte, which 13 says, may decide a branch of what is compiled.
fn differ(block: &[u8; 16], from: usize, byte: u8) -> bool
    requires { from ≤ 16 }
    ensures { result ≡ not (same (drop from block.now) (replicate (16 - from) byte)) }
{
    let mut bad = false;
    for i in (0..16).rev() {
        bad |= (from <= i) & (block[i] != byte);
    }
    bad
}

// Refusal 13 by the first and the last block of an opened sealed part of `size` bytes.
pub(crate) fn bad_blocks(size: usize, front: [u8; 16], end: [u8; 16]) -> bool
    ensures { result ≡ bad_blocks size front end }
{
    let told = number32(&front, 0);
    let count = padding(told);
    let from = 16 - usize::from(count);
    (size != sealed_size(told)) | differ(&end, from, count)
}
