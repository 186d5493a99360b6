// SPDX-License-Identifier: MPL-2.0
// Opening a sealed message. Its parts, and what decides each refusal:
//
//     | header and chain | sealed part: whole blocks (9) | tag (11) |
//     0                start                        length - 32   length
//
// The first and the last block of the sealed part decide 13 in locals, so that nothing is written to the working buffer before. A small part is
// decrypted whole into a local and copied from there, a larger one is decrypted into the working buffer once these two were judged.
ghost use Rattle.std.specs.Prelude.{◌≡◌, ◌≤◌, ◌<◌, length, OnOk};
ghost use Rattle.laws.specs.Rows.{first, unless};
ghost use Rattle.aes.specs.Cbc.{cbc_decrypt};
ghost use Rattle.seal.specs.Opening.{sealed_part, no_part, padding_rows, part_refusal, unless_bad, part_into, open_refusal, opened_into};

use crate::blocks::Blocks;
use crate::key::Keys;
use crate::padding::bad_blocks;
use octets::numbers::bytes_at;
use wire::header::{SHORTEST, TAG};
use wire::refusals::{Refusal, Refused};

// The most bytes of a message.
const LONGEST: usize = 65535;

// A sealed part of at most so many bytes, a payload of at most 124, is opened by way of a local.
const SMALL: usize = 128;

// The sealed part of a message, from `start` to the tag: the first of 1, 3 and 9 that applies, or the blocks.
#[tactic(auto, unfolding(crate::specs::Opening::no_part, crate::specs::Opening::sealed_part))]
fn sealed_blocks(message: &[u8], start: usize) -> Result<Blocks<'_>, Refused>
    ensures value { result ≡ unless (no_part (length message.now) start) (sealed_part message.now start) }
    ensures long { OnOk result ((42 ≤ length message.now) × (length message.now < 65536)) }
{
    Refusal::TooShort.when(message.len() < SHORTEST)?;
    Refusal::WrongLength.when(LONGEST < message.len())?;
    let end = message.len() - TAG;
    Refusal::WrongSealedSize.when(end <= start)?;
    Refusal::WrongSealedSize.when((end - start) % 16 != 0)?;
    Ok(Blocks::of(&message[start..end]))
}

// Opens a small sealed part, for which the working buffer has room, or refuses with 13. Each block is decrypted once, into a local. Round keys and
// vector stand beside one another, here and below: as a struct with methods they are copied out of it for each call of aes. So reading a message
// took 1,552 bytes of stack for 1,344, and writing one 1,500 for 1,324, which is past the bar of `hub_write`.
fn open_small(
    round_keys: [[u8; 16]; 11],
    vector: [u8; 16],
    sealed: &Blocks,
    working: &mut [u8],
) -> Result<(), Refused>
    requires small { length sealed.now ≤ 128 }
    requires room { length sealed.now ≤ length working.old }
    ensures value { result ≡ unless (first (padding_rows (cbc_decrypt round_keys vector sealed.now))) tt }
    ensures new_working { working.new ≡ unless_bad (cbc_decrypt round_keys vector sealed.now) working.old }
{
    let size = sealed.bytes().len();
    let mut local = [0u8; SMALL];
    aes::cbc::cbc_decrypt(round_keys, vector, sealed.bytes(), &mut local);
    let plain = Blocks::of(&local[..size]);
    Refusal::WrongPadding.when(bad_blocks(size, bytes_at(&local, 0), plain.last()))?;
    working[..size].copy_from_slice(plain.bytes());
    Ok(())
}

// Opens a sealed part, for which the working buffer has room, or refuses with 13. One that is not small has its first and its last block decrypted
// twice, since no local has room for all of them.
fn open_blocks(
    round_keys: [[u8; 16]; 11],
    vector: [u8; 16],
    sealed: &Blocks,
    working: &mut [u8],
) -> Result<(), Refused>
    requires { length sealed.now ≤ length working.old }
    ensures value { result ≡ unless (first (padding_rows (cbc_decrypt round_keys vector sealed.now))) tt }
    ensures new_working { working.new ≡ unless_bad (cbc_decrypt round_keys vector sealed.now) working.old }
{
    let bytes = sealed.bytes();
    if bytes.len() <= SMALL {
        return open_small(round_keys, vector, sealed, working);
    }
    let before = sealed.before_last(vector);
    let ends = aes::cbc::cbc_decrypt_ends(
        round_keys,
        vector,
        sealed.first(),
        before,
        sealed.last(),
    );
    Refusal::WrongPadding.when(bad_blocks(bytes.len(), ends.first, ends.last))?;
    aes::cbc::cbc_decrypt(round_keys, vector, bytes, working);
    Ok(())
}

// Opens a sealed part that was found in a message whose tag is right, or refuses with 12 or 13. By itself, so that what it takes of the stack is
// not held while the tag is made.
#[inline(never)]
fn open_part(
    keys: &Keys,
    message: &[u8],
    sealed: &Blocks,
    working: &mut [u8],
) -> Result<(), Refused>
    requires { 42 ≤ length message.now }
    ensures value { result ≡ unless (part_refusal keys.now message.now sealed.now (length working.old)) tt }
    ensures new_working { working.new ≡ part_into keys.now message.now sealed.now working.old }
{
    Refusal::ShortWorking.when(working.len() < sealed.bytes().len())?;
    let vector = keys.vector(message);
    open_blocks(keys.round_keys(), vector, sealed, working)
}

// Opens the sealed part that starts at `start` into the working buffer, or answers the first refusal that applies. A refusal leaves the working
// buffer as it was; else its first bytes hold size, payload and padding.
pub fn open(keys: &[u8], message: &[u8], start: usize, working: &mut [u8]) -> Result<(), Refused>
    ensures value { result ≡ unless (open_refusal keys.now message.now start (length working.old)) tt }
    ensures new_working { working.new ≡ opened_into keys.now message.now start working.old }
{
    let sealed = sealed_blocks(message, start)?;
    let keys = Keys::try_from(keys)?;
    let (body, tag) = message.split_at(message.len() - TAG);
    Refusal::WrongTag.when(!sha256::same_tag(keys.tag_of(body), tag))?;
    open_part(&keys, message, &sealed, working)
}
