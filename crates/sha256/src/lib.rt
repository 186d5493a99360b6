// SPDX-License-Identifier: MPL-2.0
// SHA-256 (FIPS 180-4) and HMAC on it (RFC 2104), of bytes wherever they stand: no call copies a message or keeps a state between calls.
// A message may come in three parts, which are hashed one after the other as if they stood so in memory.
#![tactic(auto)]

mod block;
mod key;
mod message;
mod parts;
mod store;
mod tag;

ghost use Rattle.std.specs.Prelude.{◌≡◌, ◌++◌};
ghost use Rattle.laws.specs.Same.{same};
ghost use Rattle.sha256.specs.Digests as fips;
ghost use Rattle.sha256.specs.Macs as rfc;
ghost use Rattle.sha256.specs.Parts.{joined};

use key::{key_block, masked};
use message::Message;

// RFC 2104's byte of the inner pad.
const IPAD: u8 = 0x36;

// RFC 2104's byte of the outer pad.
const OPAD: u8 = 0x5c;

// The SHA-256 digest of a message.
pub fn digest(message: &[u8]) -> [u8; 32]
    ensures { result ≡ fips.digest message.now }
{
    Message::from(message).digest()
}

// The SHA-256 digest of a message in three parts.
pub fn digest_parts(first: &[u8], second: &[u8], third: &[u8]) -> [u8; 32]
    ensures { result ≡ fips.digest (first.now ++ (second.now ++ third.now)) }
{
    let message = Message {
        first,
        second,
        third,
    };
    message.digest()
}

// The HMAC-SHA-256 of a message, under a key of any length.
pub fn hmac(key: &[u8], message: &[u8]) -> [u8; 32]
    ensures { result ≡ rfc.hmac key.now message.now }
{
    hmac_of(key, &Message::from(message))
}

// The HMAC-SHA-256 of a message in three parts, under a key of any length.
pub fn hmac_parts(key: &[u8], first: &[u8], second: &[u8], third: &[u8]) -> [u8; 32]
    ensures { result ≡ rfc.hmac key.now (first.now ++ (second.now ++ third.now)) }
{
    let message = Message {
        first,
        second,
        third,
    };
    hmac_of(key, &message)
}

// H(K ⊕ opad, H(K ⊕ ipad, text)).
#[tactic(auto, unfolding(crate::specs::Macs::hmac))]
fn hmac_of(key: &[u8], text: &Message<'_>) -> [u8; 32]
    ensures { result ≡ rfc.hmac key.now (joined text.now) }
{
    let block = key_block(key);
    let inner = digest_under(&block, IPAD, text);
    digest_under(&block, OPAD, &Message::from(&inner[..]))
}

// H(K ⊕ pad, text). In its caller it takes no frame of its own: without the hint an HMAC takes 256 bytes of stack more.
#[inline(always)]
fn digest_under(block: &[u8; 64], pad: u8, text: &Message<'_>) -> [u8; 32]
    ensures { result ≡ fips.digest (rfc.masked pad block.now ++ joined text.now) }
{
    text.digest_after(&masked(block, pad))
}

// Whether a tag is the one computed. It reads every byte, ors the differences and has one exit; nothing is proved of its time. A tag that is not
// of thirty-two bytes is another.
#[tactic(auto, using(crate::proofs::Tags::differ_by, laws::proofs::Sames::same_length))]
pub fn same_tag(ours: [u8; 32], theirs: &[u8]) -> bool
    ensures { result ≡ same ours theirs.now }
{
    theirs.len() == 32 && tag::differences(&ours, theirs) == 0
}
