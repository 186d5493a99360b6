// SPDX-License-Identifier: MPL-2.0
// Bytes in whole blocks of sixteen.
ghost use Rattle.std.specs.Prelude.{◌≡◌, ℕ, List, ◌-◌, ◌≤◌, ◌/◌, ◌%◌, length, take, drop};
ghost use Rattle.aes.specs.Cbc.{block_before};

use std::marker::Model;

// One block or more. Contracts see the bytes, as a list.
#[derive(Drop)]
pub(crate) struct Blocks<'a> {
    bytes: &'a [u8],
}

impl<'a> Model for Blocks<'a> {
    ghost Value = { List ℕ };

    ghost view = { λ blocks. blocks.bytes.now };

    ghost invariant = { λ blocks. (16 ≤ length blocks.bytes.now) × (length blocks.bytes.now % 16 ≡ 0) };
}

impl<'a> Blocks<'a> {
    // The blocks that some bytes are.
    pub(crate) fn of(bytes: &'a [u8]) -> Blocks<'a>
        requires { (16 ≤ length bytes.now) × (length bytes.now % 16 ≡ 0) }
        ensures { result ≡ bytes.now }
    {
        Blocks { bytes }
    }

    // The bytes, which are whole blocks, and not none.
    pub(crate) fn bytes(&self) -> &'a [u8]
        ensures value { result.now ≡ self.now }
        ensures some { 16 ≤ length self.now }
        ensures whole { length self.now % 16 ≡ 0 }
    {
        self.bytes
    }

    // The first block.
    pub(crate) fn first(&self) -> [u8; 16]
        ensures { result ≡ take 16 self.now }
    {
        let bytes = self.bytes;
        *bytes.first_chunk().unwrap()
    }

    // The last block.
    pub(crate) fn last(&self) -> [u8; 16]
        ensures { result ≡ drop (length self.now - 16) self.now }
    {
        let bytes = self.bytes;
        *bytes.last_chunk().unwrap()
    }

    // What was chained into the last block: the block before it, or the vector where there is none.
    pub(crate) fn before_last(&self, vector: [u8; 16]) -> [u8; 16]
        ensures { result ≡ block_before (length self.now / 16 - 1) vector self.now }
    {
        let bytes = self.bytes;
        let before = &bytes[..bytes.len() - 16];
        before.last_chunk().copied().unwrap_or(vector)
    }
}
