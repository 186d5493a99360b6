// SPDX-License-Identifier: MPL-2.0
// Sealing a message. Its parts, as they are written into the output:
//
//     | header and chain, written before | size, payload, padding: encrypted where they stand | tag |
//     0                                start                                                 end   end + 32
//
ghost use Rattle.std.specs.Prelude.{◌≡◌, ◌+◌, ◌≤◌, ◌<◌, ◌^◌, length, take, IfOk};
ghost use Rattle.std.proofs.lemmas.List.Edits.{sets};
ghost use Rattle.laws.specs.Rows.{first, unless};
ghost use Rattle.seal.specs.Padding.{sealed_size, plain_text};
ghost use Rattle.aes.specs.Key.{expand_key};
ghost use Rattle.aes.specs.Cbc.{cbc_encrypt};
ghost use Rattle.seal.specs.Keys.{encryption_key, tag_of};
ghost use Rattle.seal.specs.Sealed.{body_rows, seal_refusal, sealed_into};

use crate::key::Keys;
use crate::padding::{padding, sealed_size};
use octets::stores::{store_bytes, store32};
use wire::header::{SHORTEST, TAG};
use wire::refusals::{Refusal, Refused};

// The most bytes of a message before its tag.
const LONGEST_BODY: usize = 65535 - TAG;

// The plain text of a payload, over the whole of its room: of sixteen padding bytes those stay that have room.
fn put_plain(payload: &[u8], room: &mut [u8])
    requires { (length payload.now < 2 ^ 32) × (length room.old ≡ sealed_size (length payload.now)) }
    ensures { room.new ≡ plain_text payload.now }
{
    let size = payload.len() as u32;
    store32(room, 0, size);
    store_bytes(room, 4, payload);
    store_bytes(room, 4 + payload.len(), &[padding(size); 16]);
}

// Size, payload and padding, encrypted over the whole of their room.
fn encrypt_part(keys: &Keys, vector: [u8; 16], payload: &[u8], room: &mut [u8])
    requires { (length payload.now < 2 ^ 32) × (length room.old ≡ sealed_size (length payload.now)) }
    ensures { room.new ≡ cbc_encrypt (expand_key (encryption_key keys.now)) vector (plain_text payload.now) }
{
    put_plain(payload, room);
    aes::cbc::cbc_encrypt_in_place(keys.round_keys(), vector, room);
}

// The tag of the first `end` bytes, after them.
fn put_tag(keys: &Keys, end: usize, out: &mut [u8])
    requires { (4 ≤ end) × (end < 65536) × (end + 32 ≤ length out.old) }
    ensures { out.new ≡ sets out.old end (tag_of keys.now (take end out.old)) }
{
    let tag = keys.tag_of(&out[..end]);
    store_bytes(out, end, &tag);
}

// Where the sealed part of a payload of `size` bytes ends that starts at `start`: the first of 1 and 3 that applies, or the place. 3 is given where
// no room is left for the tag in 65,535 bytes.
fn sealed_end(start: usize, size: usize) -> Result<usize, Refused>
    ensures value { result ≡ unless (first (body_rows start size)) (start + sealed_size size) }
    ensures fits { IfOk result (λ end. (42 ≤ start) × (end ≡ start + sealed_size size) × (end ≤ 65503)) }
{
    Refusal::TooShort.when(start < SHORTEST)?;
    let size = u32::try_from(size).unwrap_or(u32::MAX);
    let end = start.saturating_add(sealed_size(size));
    Refusal::WrongLength.when(LONGEST_BODY < end)?;
    Ok(end)
}

// Seals a payload after the first `start` bytes of the output, which hold the message's header and chain, or answers the first refusal that
// applies. A refusal leaves the output as it was; else the whole message stands at its start, and what stood after it is unchanged.
pub fn seal(keys: &[u8], payload: &[u8], start: usize, out: &mut [u8]) -> Result<(), Refused>
    ensures value { result ≡ unless (seal_refusal (length keys.now) start (length payload.now) (length out.old)) tt }
    ensures new_out { out.new ≡ sealed_into keys.now start payload.now out.old }
{
    let end = sealed_end(start, payload.len())?;
    let keys = Keys::try_from(keys)?;
    Refusal::NoRoom.when(out.len() < end + TAG)?;
    let vector = keys.vector(out);
    encrypt_part(&keys, vector, payload, &mut out[start..end]);
    put_tag(&keys, end, out);
    Ok(())
}
