// SPDX-License-Identifier: MPL-2.0
// The common header, read down document 01's table "The message on the wire".
//
//     0         2        4         5      6       8          12        20      22      24        32        40
//     | 30 30   | length | version | type | flags | sequence | request | index | count | session | channel | chain, payload, tag
//
ghost use Rattle.std.specs.Prelude.{◌≡◌, ◌≤◌};
ghost use Rattle.laws.specs.Rows.{first, unless};
ghost use Rattle.wire.specs.Chain.{read_chain};
ghost use Rattle.wire.specs.Fields.{bad_type, bad_flags, bad_piece, is_sealed, tag_size};
ghost use Rattle.wire.specs.Reader.{empty_header, header_of, room_of, header_rows, refusal_with, read_header, wanted};

use super::chain::{FoundChain, leaves, read_chain};
use super::refusals::{Refusal, Refused};
use octets::numbers::{byte, number16, number32, number64};

// The message types. They are bytes and no enum, since a header that is written may have any, and 5 refuses another (`WriterExact`, crates/promises).
// Discovery: a message type.
pub const DISCOVERY: u8 = 1;
// Connect: a message type.
pub const CONNECT: u8 = 2;
// Session: a message type.
pub const SESSION: u8 = 4;

// The most pieces into which a report is cut.
pub const MOST_PIECES: u16 = 64;

// The bytes of the tag.
pub const TAG: usize = 32;

// The fewest bytes of a message: the fixed header and the end of its chain.
pub const SHORTEST: usize = Header::LENGTH + 2;

// The fields that a sender chooses. `kind` is MessageType.
#[derive(Clone, Copy)]
pub struct Header {
    pub kind: u8,
    pub flags: u16,
    pub sequence: u32,
    pub request: u64,
    pub index: u16,
    pub count: u16,
    pub session: u64,
    pub channel: u64,
}

impl Header {
    // The fixed length.
    pub const LENGTH: usize = 40;

    // The version that we speak.
    pub const VERSION: u8 = 3;

    // The first two bytes of every message.
    pub const SIGNATURE: u16 = 0x3030;

    // Where each field stands, in the order of document 01's table. The wider a number, the narrower the type of its place (see octets' numbers).
    pub const SIGNATURE_AT: u32 = 0;

    pub const LENGTH_AT: u32 = 2;

    pub const VERSION_AT: usize = 4;

    pub const TYPE_AT: usize = 5;

    pub const FLAGS_AT: u32 = 6;

    pub const SEQUENCE_AT: u16 = 8;

    pub const REQUEST_AT: u8 = 12;

    pub const INDEX_AT: u32 = 20;

    pub const COUNT_AT: u32 = 22;

    pub const SESSION_AT: u8 = 24;

    pub const CHANNEL_AT: u8 = 32;

    // A header with nothing in it.
    pub fn empty() -> Self
        ensures { result ≡ empty_header }
    {
        Header {
            kind: 0,
            flags: 0,
            sequence: 0,
            request: 0,
            index: 0,
            count: 0,
            session: 0,
            channel: 0,
        }
    }
}

// Refusal 5.
#[tactic(auto, unfolding(crate::specs::Fields::bad_type))]
pub fn bad_type(kind: u8) -> bool
    ensures { result ≡ bad_type kind }
{
    (kind != DISCOVERY) & (kind != CONNECT) & (kind != SESSION)
}

// Whether flags 2 (HMAC present) and 4 (encrypted) are both set.
#[tactic(auto, unfolding(crate::specs::Fields::is_sealed))]
pub fn is_sealed(flags: u16) -> bool
    ensures { result ≡ is_sealed flags }
{
    (flags / 2 % 2 == 1) & (flags / 4 % 2 == 1)
}

// Refusal 6.
#[tactic(auto, unfolding(crate::specs::Fields::bad_flags))]
pub fn bad_flags(kind: u8, flags: u16) -> bool
    ensures { result ≡ bad_flags kind flags }
{
    let sealed = is_sealed(flags);
    (15 < flags)
        | (flags / 2 % 2 != flags / 4 % 2)
        | ((kind == DISCOVERY) & sealed)
        | ((kind == SESSION) & !sealed)
}

// Refusal 7.
#[tactic(auto, unfolding(crate::specs::Fields::bad_piece, crate::specs::Fields::most_pieces))]
pub fn bad_piece(kind: u8, index: u16, count: u16) -> bool
    ensures { result ≡ bad_piece kind index count }
{
    (count == 0) | (MOST_PIECES < count) | (count <= index) | ((kind != SESSION) & (count != 1))
}

// The tag's bytes, which are there where flag 2 is set.
#[tactic(auto, unfolding(crate::specs::Fields::tag_size))]
pub fn tag_size(flags: u16) -> usize
    ensures { result ≡ tag_size flags }
{
    (flags / 2 % 2) as usize * TAG
}

// The fields, each at its place.
fn fields(message: &[u8]) -> Header
    ensures { result ≡ header_of message.now }
{
    Header {
        kind: byte(message, Header::TYPE_AT),
        flags: number16(message, Header::FLAGS_AT),
        sequence: number32(message, Header::SEQUENCE_AT),
        request: number64(message, Header::REQUEST_AT),
        index: number16(message, Header::INDEX_AT),
        count: number16(message, Header::COUNT_AT),
        session: number64(message, Header::SESSION_AT),
        channel: number64(message, Header::CHANNEL_AT),
    }
}

// The chain's room is the message after the fixed header, less the tag. Where the tag reaches into the header there is none.
#[tactic(auto, using(crate::proofs::Chains::no_room), unfolding(crate::specs::Reader::room_of))]
fn chain_of(message: &[u8], tag: usize) -> Option<FoundChain>
    requires { tag ≤ 32 }
    ensures { result ≡ read_chain (room_of tag message.now) }
{
    if message.len() < Header::LENGTH + tag {
        return None;
    }
    let end = message.len() - tag;
    read_chain(&message[Header::LENGTH..end])
}

// The table, over the bytes given and what was read of them: the first refusal that applies. The chain comes as `header_rows` has it: whether it is
// broken, and what it leaves.
#[tactic(auto, unfolding(crate::specs::Reader::header_rows))]
fn judge(
    given: usize,
    signature: u16,
    size: u16,
    version: u8,
    h: Header,
    broken: bool,
    rest: usize,
) -> Result<(), Refused>
    ensures { result ≡ unless (first (header_rows given signature size version h broken rest)) tt }
{
    let length = size as usize;
    let no_blocks = (rest == 0) | (rest % 16 != 0);
    Refusal::TooShort.when(given < SHORTEST)?;
    Refusal::WrongSignature.when(signature != Header::SIGNATURE)?;
    Refusal::WrongLength.when((length < SHORTEST) | (length != given))?;
    Refusal::WrongVersion.when(version != Header::VERSION)?;
    Refusal::WrongType.when(bad_type(h.kind))?;
    Refusal::WrongFlags.when(bad_flags(h.kind, h.flags))?;
    Refusal::WrongPiece.when(bad_piece(h.kind, h.index, h.count))?;
    Refusal::WrongChain.when(broken)?;
    Refusal::WrongSealedSize.when(is_sealed(h.flags) & no_blocks)
}

// The first refusal of 1 to 9 that applies, given the header and the chain as they were read.
#[tactic(auto, unfolding(crate::specs::Reader::refusal_with, crate::specs::Reader::rows_of))]
fn refusal(message: &[u8], header: Header, chain: Option<FoundChain>) -> Result<(), Refused>
    ensures { result ≡ unless (refusal_with message.now header chain) tt }
{
    judge(
        message.len(),
        number16(message, Header::SIGNATURE_AT),
        number16(message, Header::LENGTH_AT),
        byte(message, Header::VERSION_AT),
        header,
        chain.is_none(),
        leaves(chain),
    )
}

// What is found in a message without keys: the header, and where the payload or the sealed part lies: after the chain and before the tag.
#[derive(Clone, Copy)]
pub struct FoundHeader {
    pub header: Header,
    pub start: usize,
    pub size: usize,
}

// Reads a message as far as it goes without keys: refusals 1 to 9, else the header.
pub fn read_header(message: &[u8]) -> Result<FoundHeader, Refused>
    ensures { result ≡ read_header message.now }
{
    let header = fields(message);
    let tag = tag_size(header.flags);
    let chain = chain_of(message, tag);
    refusal(message, header, chain)?;
    let size = leaves(chain);
    Ok(FoundHeader {
        header,
        start: message.len() - tag - size,
        size,
    })
}

// How many bytes of a stream its first message takes: what MessageLength says, and at least 42.
#[tactic(auto, unfolding(crate::specs::Reader::wanted))]
pub fn wanted(stream: &[u8]) -> usize
    ensures { result ≡ wanted stream.now }
{
    let length = number16(stream, 2) as usize;
    if length < SHORTEST { SHORTEST } else { length }
}
