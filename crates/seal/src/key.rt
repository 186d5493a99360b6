// SPDX-License-Identifier: MPL-2.0
// What the 64 key bytes are for: 16 for encryption, 16 for the vector, 32 for the tag.
ghost use Rattle.std.specs.Prelude.{◌≡◌, ℕ, List, ◌+◌, ◌≤◌, ◌<◌, length};
ghost use Rattle.laws.specs.Rows.{first, unless};
ghost use Rattle.aes.specs.Key.{expand_key};
ghost use Rattle.seal.specs.Keys.{encryption_key, vector_block, vector, tag_of};
ghost use Rattle.seal.specs.Opening.{key_rows};

use crate::KEYS;
use std::marker::Model;
use wire::refusals::{Refusal, Refused};

// SessionID, SequenceNumber, FragmentIndex and FragmentCount of a message, joined.
#[tactic(auto, unfolding(crate::specs::Keys::vector_block, laws::specs::Bytes::bytes_at))]
fn vector_block(message: &[u8]) -> [u8; 16]
    requires { 40 ≤ length message.now }
    ensures { result ≡ vector_block message.now }
{
    let m = message;
    [
        m[24], m[25], m[26], m[27], m[28], m[29], m[30], m[31], m[8], m[9], m[10], m[11], m[20],
        m[21], m[22], m[23],
    ]
}

// The 64 key bytes. Contracts see them as a list.
#[derive(Drop)]
pub(crate) struct Keys<'a> {
    bytes: &'a [u8; KEYS],
}

impl<'a> Model for Keys<'a> {
    ghost Value = { List ℕ };

    ghost view = { λ keys. keys.bytes.now };

    ghost invariant = { λ keys. length keys.bytes.now ≡ 64 };
}

impl<'a> TryFrom<&'a [u8]> for Keys<'a> {
    type Error = Refused;

    ghost try_from_gives = { λ bytes keys. keys ≡ unless (first (key_rows (length bytes.now))) bytes.now };

    // Refusal 10: other than 64 bytes are no keys.
    fn try_from(bytes: &'a [u8]) -> Result<Keys<'a>, Refused> {
        match bytes.as_array() {
            Some(bytes) => Ok(Keys { bytes }),
            None => Err(Refusal::WrongKeys.into()),
        }
    }
}

impl Keys<'_> {
    // The round keys of the sealed part.
    pub(crate) fn round_keys(&self) -> [[u8; 16]; 11]
        ensures { result ≡ expand_key (encryption_key self.now) }
    {
        let bytes = self.bytes;
        aes::key::expand_key(*bytes.first_chunk().unwrap())
    }

    // The vector of a message: one AES block under the vector key.
    #[tactic(auto, unfolding(crate::specs::Keys::vector))]
    pub(crate) fn vector(&self, message: &[u8]) -> [u8; 16]
        requires { 40 ≤ length message.now }
        ensures { result ≡ vector self.now message.now }
    {
        let bytes = self.bytes;
        let round_keys = aes::key::expand_key(*bytes[16..].first_chunk().unwrap());
        aes::cbc::cbc_encrypt_one(round_keys, vector_block(message))
    }

    // The tag of a message that is given without its last 32 bytes. It sees, for MessageLength, the length of what it is given.
    #[tactic(auto, unfolding(crate::specs::Keys::tag_of))]
    pub(crate) fn tag_of(&self, body: &[u8]) -> [u8; 32]
        requires { (4 ≤ length body.now) × (length body.now < 65536) }
        ensures { result ≡ tag_of self.now body.now }
    {
        let bytes = self.bytes;
        let length = (body.len() as u16).to_be_bytes();
        sha256::hmac_parts(&bytes[32..], &body[..2], &length, &body[4..])
    }
}
