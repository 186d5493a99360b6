// SPDX-License-Identifier: MPL-2.0
// Reading a message: the header and its chain (1 to 9), a sealed part opened into the working buffer (10 to 13), the payload's shape (14).
ghost use Rattle.std.specs.Prelude.{◌≡◌, ◌+◌, ◌≤◌, length};
ghost use Rattle.message.specs.Reading.{plain_read, sealed_read, read_message, working_after};
ghost use Rattle.seal.specs.Opening.{opened_into};

use octets::numbers::number32;
use payloads::shapes::bad_payload;
use wire::header::{FoundHeader, Header, is_sealed, read_header};
use wire::refusals::{Refusal, Refused};

// What is found in a message: the header, and where the payload lies, in the message or, if it was sealed, in the working buffer. `sealed` is a fact
// of the message and says nothing of whether a payload is there.
#[derive(Clone, Copy)]
pub struct FoundMessage {
    pub header: Header,
    pub sealed: bool,
    pub from: usize,
    pub size: usize,
}

// A plain payload, where it stands in the message.
fn read_plain(message: &[u8], found: FoundHeader) -> Result<FoundMessage, Refused>
    requires { found.start + found.size ≤ length message.now }
    ensures { result ≡ plain_read message.now found }
{
    let start = found.start;
    let end = start + found.size;
    let header = found.header;
    Refusal::WrongPayload.when(bad_payload(header.kind, false, &message[start..end]))?;
    Ok(FoundMessage {
        header,
        sealed: false,
        from: start,
        size: found.size,
    })
}

// A sealed payload: the sealed part is opened into the working buffer, and the payload stands after its size.
fn read_sealed(
    message: &[u8],
    keys: &[u8],
    found: FoundHeader,
    working: &mut [u8],
) -> Result<FoundMessage, Refused>
    ensures value { result ≡ sealed_read message.now keys.now found (length working.old) }
    ensures new_working { working.new ≡ opened_into keys.now message.now found.start working.old }
{
    seal::opening::open(keys, message, found.start, working)?;
    let header = found.header;
    let size = number32(working, 0) as usize;
    let end = 4 + size;
    Refusal::WrongPayload.when(bad_payload(header.kind, true, &working[4..end]))?;
    Ok(FoundMessage {
        header,
        sealed: true,
        from: 4,
        size,
    })
}

// Reads a message. The working buffer is left alone by a plain message and by refusals 1 to 13; after a sealed message got past 13 its first
// bytes hold the opened sealed part.
pub fn read(message: &[u8], keys: &[u8], working: &mut [u8]) -> Result<FoundMessage, Refused>
    ensures value { result ≡ read_message message.now keys.now (length working.old) }
    ensures new_working { working.new ≡ working_after message.now keys.now working.old }
{
    let found = read_header(message)?;
    if is_sealed(found.header.flags) {
        return read_sealed(message, keys, found, working);
    }
    read_plain(message, found)
}
