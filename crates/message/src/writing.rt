// SPDX-License-Identifier: MPL-2.0
// Writing a message. Its parts, as they are written into the output; what is sealed is sealed where it stands:
//
//     | header | chain | payload, or sealed part and tag |
//     0        40    start                          length
//
ghost use Rattle.std.specs.Prelude.{◌≡◌, ◌++◌, ◌+◌, ◌≤◌, length, drop};
ghost use Rattle.writer.specs.Header.{header_bytes};
ghost use Rattle.message.specs.Writing.{finished_length, write_answer, written_into};

use octets::stores::store_bytes;
use payloads::shapes::bad_payload;
use seal::KEYS;
use seal::padding::sealed_size;
use wire::chain::bad_chain;
use wire::header::{Header, SESSION, TAG, bad_flags, bad_piece, bad_type, is_sealed};
use wire::refusals::{Refusal, Refused};
use writer::header::write_header;

// The most bytes of a Session payload.
pub const MOST_PAYLOAD: usize = 16384;

// The length of a message with a chain and a payload of n bytes.
fn finished_length(sealed: bool, chain: usize, payload: usize) -> usize
    requires { (chain ≤ 2058) × (payload ≤ 16384) }
    ensures { result ≡ finished_length sealed chain payload }
{
    if sealed {
        return Header::LENGTH + chain + (sealed_size(payload as u32) + TAG);
    }
    Header::LENGTH + chain + payload
}

// The length of the message that is written, given `keys` key bytes, into an output of `room` bytes, or the first refusal that applies.
#[tactic(auto, unfolding(crate::specs::Writing::write_answer, crate::specs::Writing::write_refusal))]
fn judged(
    header: Header,
    chain: &[u8],
    payload: &[u8],
    keys: usize,
    room: usize,
) -> Result<usize, Refused>
    ensures { result ≡ write_answer header chain.now payload.now keys room }
{
    let sealed = is_sealed(header.flags);
    let long = MOST_PAYLOAD < payload.len();
    Refusal::WrongType.when(bad_type(header.kind))?;
    Refusal::WrongFlags.when(bad_flags(header.kind, header.flags))?;
    Refusal::WrongPiece.when(bad_piece(header.kind, header.index, header.count))?;
    Refusal::WrongChain.when(bad_chain(chain))?;
    Refusal::WrongKeys.when(sealed & (keys != KEYS))?;
    Refusal::WrongPayload.when(bad_payload(header.kind, sealed, payload))?;
    Refusal::WrongPieceSize.when((header.kind == SESSION) & long)?;
    let size = finished_length(sealed, chain.len(), payload.len());
    Refusal::NoRoom.when(room < size)?;
    Ok(size)
}

// The header of a message of `size` bytes, and its chain.
fn put_front(header: Header, size: u16, chain: &[u8], out: &mut [u8])
    requires { 40 + length chain.now ≤ length out.old }
    ensures { out.new ≡ (header_bytes header size ++ chain.now)
        ++ drop (40 + length chain.now) out.old }
{
    let _ = write_header(header, size, out);
    store_bytes(out, Header::LENGTH, chain);
}

// Writes a message with these fields, this chain (given with its end entry) and this payload at the start of the output, or refuses and leaves
// the output as it was. Flags 2 and 4 say that it is to be sealed; a plain message looks at no keys.
pub fn write(
    header: Header,
    chain: &[u8],
    payload: &[u8],
    keys: &[u8],
    out: &mut [u8],
) -> Result<usize, Refused>
    ensures value { result ≡ write_answer header chain.now payload.now (length keys.now) (length out.old) }
    ensures new_out { out.new ≡ written_into header chain.now payload.now keys.now out.old }
{
    let size = judged(header, chain, payload, keys.len(), out.len())?;
    let start = Header::LENGTH + chain.len();
    put_front(header, size as u16, chain, out);
    if is_sealed(header.flags) {
        seal::sealing::seal(keys, payload, start, out)?;
        return Ok(size);
    }
    store_bytes(out, start, payload);
    Ok(size)
}
