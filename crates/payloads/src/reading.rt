// SPDX-License-Identifier: MPL-2.0
// What is read out of a Connect payload.
ghost use Rattle.std.specs.Prelude.{◌≡◌, get_or};
ghost use Rattle.std.specs.Option.{unwrap_or};
ghost use Rattle.payloads.specs.Connect.{nowhere};
ghost use Rattle.payloads.specs.Reading.{connection_mode, connect_type, code_of, read_request, sized_at, certificate_of, thumbprint_of};

use crate::{NONCE_AT, NONE, X_AT, Y_AT};
use octets::numbers::{bytes_at, number16};

// The byte at a place, or `NONE`.
fn byte_or_none(p: &[u8], at: usize) -> u8
    ensures { result ≡ get_or p.now at 255 }
{
    p.get(at).copied().unwrap_or(NONE)
}

// The type byte of a Connect payload, or `NONE`.
pub fn connect_type(payload: &[u8]) -> u8
    ensures { result ≡ connect_type payload.now }
{
    byte_or_none(payload, 2)
}

// The byte after the type, the Result of a Connection Response and the Status of an Authentication Done Response, or `NONE`.
pub fn code_of(payload: &[u8]) -> u8
    ensures { result ≡ code_of payload.now }
{
    byte_or_none(payload, 3)
}

// The ConnectionMode of a Connect payload.
pub fn connection_mode(payload: &[u8]) -> u16
    ensures { result ≡ connection_mode payload.now }
{
    number16(payload, 0)
}

// Nonce, X and Y, of a Connection Request or of a Connection Response that is Pending.
#[derive(Clone, Copy)]
pub struct Request {
    pub nonce: [u8; 8],
    pub x: [u8; 32],
    pub y: [u8; 32],
}

// What a payload has at the places of nonce, X and Y; a byte past its end counts as 0.
#[tactic(auto, unfolding(crate::specs::Reading::read_request, crate::specs::Format::read_from))]
pub fn read_request(payload: &[u8]) -> Request
    ensures { result ≡ read_request payload.now }
{
    Request {
        nonce: bytes_at(payload, NONCE_AT),
        x: bytes_at(payload, X_AT),
        y: bytes_at(payload, Y_AT),
    }
}

// A part of a payload: where it begins and how many bytes it has. The empty part at the payload's start stands for one that is not there:
// the promises `ConnectBack`, `ConnectLies` and `DiscoveryLies` say so (`nowhere`), and the words of `hub_read_connect` and its sister.
#[derive(Clone, Copy, Default)]
pub struct Span {
    pub from: usize,
    pub size: usize,
}

// Where the bytes lie whose number stands before them, at a place, if they lie in the payload.
fn sized_at(p: &[u8], at: u32) -> Option<Span>
    ensures { unwrap_or result nowhere ≡ sized_at p.now at }
{
    let size = number16(p, at) as usize;
    let from = at as usize + 2;
    (from + size <= p.len()).then_some(Span { from, size })
}

// Where the certificate of a Device Authentication payload lies; where it does not lie in the payload, the empty place at its start.
#[tactic(auto, unfolding(crate::specs::Reading::certificate_of))]
pub fn certificate_of(payload: &[u8]) -> Span
    ensures { result ≡ certificate_of payload.now }
{
    sized_at(payload, 3).unwrap_or_default()
}

// Where its thumbprint lies, after the certificate; where it does not lie in the payload, the empty place at its start.
#[tactic(auto, unfolding(crate::specs::Reading::thumbprint_of))]
pub fn thumbprint_of(payload: &[u8]) -> Span
    ensures { result ≡ thumbprint_of payload.now }
{
    sized_at(payload, 5 + number16(payload, 3) as u32).unwrap_or_default()
}
