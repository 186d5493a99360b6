// SPDX-License-Identifier: MPL-2.0
// A message with its padding, as consecutive parts, which are never copied together. A block that lies in the third part or in the padding is
// hashed where it stands; any other, as one that touches a seam, is laid out of the parts first:
//
//     message     |  first  | second |           third           | padding |
//     blocks      |     |     |     |     |     |     |     |     |     |
//                 laid  laid  laid  in third ..         laid  laid  in padding
ghost use Rattle.std.specs.Prelude.{◌≡◌, List, [], ◌++◌, ℕ, ◌<◌, ◌≤◌, ◌+◌, ◌^◌, length, IfSome};
ghost use Rattle.laws.specs.Bytes.{bytes_at};
ghost use Rattle.sha256.specs.Digests.{after_block, hashed};
ghost use Rattle.sha256.specs.Parts.{joined};

use crate::block::absorb_block;
use crate::message::Message;
use compression::Vars;

// A message with its padding.
#[derive(Clone, Copy)]
pub(crate) struct Padded<'a> {
    pub message: Message<'a>,
    pub padding: &'a [u8],
    ghost fits: { length (joined message) + length padding.now < 2 ^ 62 },
}

// The part starts at `ahead` in the message and the block at `at`. The places of the message that both have are copied: a block that had the bytes
// of what stands before the part has those of the part as well. Past their end it has zeros.
fn lay(block: &mut [u8; 64], part: &[u8], ahead: usize, at: usize)
    requires { (at + 64 < 2 ^ 64) × (ahead + length part.now < 2 ^ 64) }
    ensures { (front : List ℕ) → length front ≡ ahead → block.old ≡ bytes_at front at 64 → block.new ≡ bytes_at (front ++ part.now) at 64 }
{
    let from = at.max(ahead);
    let to = (at + 64).min(ahead + part.len());
    if from < to {
        block[from - at..to - at].copy_from_slice(&part[from - ahead..to - ahead]);
    }
}

// The block at a place of the message where it stands, if it lies in this part, which starts at `ahead` in the message.
fn inside<'a>(part: &'a [u8], ahead: usize, at: usize) -> Option<&'a [u8; 64]>
    ensures { IfSome result (λ block. (before after : List ℕ) → length before ≡ ahead
        → block.now ≡ bytes_at (before ++ (part.now ++ after)) at 64) }
{
    let block = part.get(at.checked_sub(ahead)?..)?.first_chunk()?;
    Some(block)
}

impl<'a> Padded<'a> {
    ghost use Rattle.sha256.specs.Padded.{whole};

    // How many bytes there are.
    fn len(&self) -> usize
        ensures { result ≡ length (whole self.now) }
    {
        self.message.len() + self.padding.len()
    }

    // The block at a place, laid over zeros out of the parts. It is lent, not returned: that takes 64 bytes of stack less. The place, which must be
    // small here and below, is an argument by itself: a type of it would say no more.
    fn lay_out(&self, block: &mut [u8; 64], at: usize)
        requires { at + 64 < 2 ^ 64 }
        ensures { block.old ≡ bytes_at [] at 64 → block.new ≡ bytes_at (whole self.now) at 64 }
    {
        let m = self.message;
        lay(block, m.first, 0, at);
        lay(block, m.second, m.first.len(), at);
        lay(block, m.third, m.first.len() + m.second.len(), at);
        lay(block, self.padding, m.len(), at);
    }

    // The block at a place where it stands, if it lies in the third part or in the padding.
    fn standing(&self, at: usize) -> Option<&'a [u8; 64]>
        ensures { IfSome result (λ block. block.now ≡ bytes_at (whole self.now) at 64) }
    {
        let m = self.message;
        match inside(m.third, m.first.len() + m.second.len(), at) {
            Some(block) => Some(block),
            None => inside(self.padding, m.len(), at),
        }
    }

    // The hash value after the block at a place.
    #[tactic(auto, using(crate::proofs::Laying::no_message))]
    fn absorb(&self, v: &mut Vars, at: usize)
        requires { at + 64 < 2 ^ 64 }
        ensures { v.new ≡ after_block v.old (bytes_at (whole self.now) at 64) }
    {
        match self.standing(at) {
            Some(block) => absorb_block(v, block),
            None => {
                let mut block = [0; 64];
                self.lay_out(&mut block, at);
                absorb_block(v, &block);
            }
        }
    }

    // The hash value after all blocks.
    #[tactic(auto, unfolding(crate::specs::Digests::blocks, crate::specs::Digests::hashed), using(crate::proofs::Hashing::blocks_more))]
    pub(crate) fn hash(&self, v: Vars) -> Vars
        ensures { result ≡ hashed v (whole self.now) }
    {
        let mut x = v;
        for n in 0..self.len() / 64 {
            self.absorb(&mut x, 64 * n);
        }
        x
    }
}
