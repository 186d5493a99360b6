// SPDX-License-Identifier: MPL-2.0
// FIPS 180-4 §5.2.1: a block of sixty-four bytes as sixteen words, the highest byte first.
ghost use Rattle.std.specs.Prelude.{◌≡◌, ◌≤◌, ◌+◌};
ghost use Rattle.laws.specs.Bytes.{be32};
ghost use Rattle.sha256.specs.Digests.{words, after_block};

use compression::{Vars, compress};

fn word_at(block: &[u8; 64], at: usize) -> u32
    requires { at + 4 ≤ 64 }
    ensures { result ≡ be32 block.now at }
{
    u32::from_be_bytes([block[at], block[at + 1], block[at + 2], block[at + 3]])
}

// The block's sixteen words.
fn load(block: &[u8; 64]) -> [u32; 16]
    ensures { result ≡ words block.now 16 }
{
    std::array::from_fn(|n| word_at(block, 4 * n))
}

// The hash value after a block. It is lent, not returned: that takes 52 bytes of stack less.
#[tactic(auto, unfolding(crate::specs::Digests::after_block))]
pub(crate) fn absorb_block(v: &mut Vars, block: &[u8; 64])
    ensures { v.new ≡ after_block v.old block.now }
{
    *v = compress(*v, load(block));
}
