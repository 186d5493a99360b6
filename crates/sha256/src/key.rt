// SPDX-License-Identifier: MPL-2.0
// RFC 2104: the key as a block, and that block with a pad.
ghost use Rattle.std.specs.Prelude.{◌≡◌, ◌≤◌, length};
ghost use Rattle.sha256.specs.Macs as rfc;

use crate::message::Message;

#[tactic(auto, using(crate::proofs::Keys::filled_by))]
fn filled(key: &[u8]) -> [u8; 64]
    requires { length key.now ≤ 64 }
    ensures { result ≡ rfc.filled key.now }
{
    let mut block = [0; 64];
    block[..key.len()].copy_from_slice(key);
    block
}

// A key longer than a block is hashed first.
#[tactic(auto, unfolding(crate::specs::Macs::key_block))]
pub(crate) fn key_block(key: &[u8]) -> [u8; 64]
    ensures { result ≡ rfc.key_block key.now }
{
    if 64 < key.len() {
        return filled(&Message::from(key).digest());
    }
    filled(key)
}

// Each byte of a key block with the pad's.
pub(crate) fn masked(key: &[u8; 64], pad: u8) -> [u8; 64]
    ensures { result ≡ rfc.masked pad key.now }
{
    std::array::from_fn(|i| key[i] ^ pad)
}
