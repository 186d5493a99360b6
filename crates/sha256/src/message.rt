// SPDX-License-Identifier: MPL-2.0
// A message in three parts, and its digest, from the start or after a block.
ghost use Rattle.std.specs.Prelude.{◌≡◌, ℕ, List, ◌++◌, ◌<◌, ◌≤◌, ◌+◌, ◌^◌, length, MatchOption};
ghost use Rattle.sha256.specs.Digests.{H0, hashed, digest};
ghost use Rattle.sha256.specs.Parts.{joined};

use crate::block::absorb_block;
use crate::parts::Padded;
use crate::store::{bytes_of, put_padding};
use compression::Vars;

// 2^61 bytes are 2^64 bits, the first length that FIPS 180-4 does not count.
const TOO_MANY: usize = 2305843009213693952;

// A message whose parts are hashed one after the other.
#[derive(Clone, Copy)]
pub(crate) struct Message<'a> {
    pub first: &'a [u8],
    pub second: &'a [u8],
    pub third: &'a [u8],
}

// A message in one part.
impl<'a> From<&'a [u8]> for Message<'a> {
    ghost from_gives = { λ bytes m. joined m ≡ bytes.now };

    fn from(bytes: &'a [u8]) -> Message<'a> {
        Message {
            first: &[],
            second: &[],
            third: bytes,
        }
    }
}

// FIPS 180-4 §5.3.3.
#[tactic(auto, unfolding(crate::specs::Digests::H0))]
fn initial() -> Vars
    ensures { result ≡ H0 }
{
    Vars {
        a: 0x6a09e667,
        b: 0xbb67ae85,
        c: 0x3c6ef372,
        d: 0xa54ff53a,
        e: 0x510e527f,
        f: 0x9b05688c,
        g: 0x1f83d9ab,
        h: 0x5be0cd19,
    }
}

impl<'a> Message<'a> {
    // How many bytes there are.
    pub(crate) fn len(&self) -> usize
        requires { length (joined self.now) < 2 ^ 64 }
        ensures { result ≡ length (joined self.now) }
    {
        self.first.len() + self.second.len() + self.third.len()
    }

    // How many bytes there are with the `done` before them, if so many have a digest.
    fn total(&self, done: usize) -> Option<usize>
        ensures { MatchOption result (2 ^ 61 ≤ done + length (joined self.now))
            (λ total. (total ≡ done + length (joined self.now)) × (total < 2 ^ 61)) }
    {
        let total = done
            .checked_add(self.first.len())?
            .checked_add(self.second.len())?
            .checked_add(self.third.len())?;
        if total < TOO_MANY { Some(total) } else { None }
    }

    // The digest of a message that goes on with these parts, from the hash value after the `done` bytes before them.
    fn finish(&self, v: Vars, done: usize) -> [u8; 32]
        ensures { (front : List ℕ) → length front ≡ done → ((m : List ℕ) → hashed H0 (front ++ m) ≡ hashed v m)
            → result ≡ digest (front ++ joined self.now) }
    {
        let Some(total) = self.total(done) else {
            return [0; 32];
        };
        let mut room = [0; 72];
        let padding = put_padding(&mut room, total);
        let padded = Padded {
            message: *self,
            padding,
        };
        bytes_of(padded.hash(v))
    }

    // The digest of the message.
    pub(crate) fn digest(&self) -> [u8; 32]
        ensures { result ≡ digest (joined self.now) }
    {
        self.finish(initial(), 0)
    }

    // The digest of a block and the message after it.
    pub(crate) fn digest_after(&self, block: &[u8; 64]) -> [u8; 32]
        ensures { result ≡ digest (block.now ++ joined self.now) }
    {
        let mut v = initial();
        absorb_block(&mut v, block);
        self.finish(v, 64)
    }
}
