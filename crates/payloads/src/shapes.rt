// SPDX-License-Identifier: MPL-2.0
// The shapes of the payloads of Discovery and Connect: refusal 14.

ghost use Rattle.std.specs.Prelude.{◌≡◌, ◌&&◌, ◌||◌, leb, eqb};
ghost use Rattle.laws.specs.Bytes.{be8, be16};
ghost use Rattle.payloads.specs.Format.{accepts_from, accepts};
ghost use Rattle.payloads.specs.Types.{connect_number};
ghost use Rattle.payloads.specs.Shapes.{
  presence_request,
  exchange,
  connection_request,
  pending_response,
  other_response,
  device_authentication,
  done_request,
  done_response,
  presence_response,
  is_shaped,
  bad_payload,
};

use crate::types::{ConnectType, DiscoveryType, shows_certificate};
use crate::{
    EXCHANGE_SIZE, FRAGMENT_SIZE, KEY_SIZE, MOST_CERTIFICATE, MOST_NAME, MOST_THUMBPRINT, PENDING,
    PRESENCE_SIZE,
};
use octets::numbers::{byte, number16, number32};
use wire::header::{CONNECT, DISCOVERY};

// The mode is 0 to 2 and the type is this one.
fn starts(connect: ConnectType, p: &[u8]) -> bool
    ensures { result ≡ (leb (be16 p.now 0) 2 && eqb (be8 p.now 2) (connect_number connect)) }
{
    (number16(p, 0) <= 2) & (byte(p, 2) == connect.number())
}

// The fields from HMACSize on are there, and nothing after them.
fn exchanges(p: &[u8]) -> bool
    ensures { result ≡ accepts_from exchange p.now 4 }
{
    (number16(p, 4) == KEY_SIZE)
        & (number32(p, 14) == FRAGMENT_SIZE)
        & (number16(p, 18) == KEY_SIZE)
        & (number16(p, 52) == KEY_SIZE)
        & (p.len() == EXCHANGE_SIZE)
}

// A Presence Request: the single byte 0.
fn is_presence_request(p: &[u8]) -> bool
    ensures { result ≡ accepts presence_request p.now }
{
    (byte(p, 0) == DiscoveryType::PresenceRequest.number()) & (p.len() == 1)
}

// A Connection Request, on curve 0.
fn is_connection_request(p: &[u8]) -> bool
    ensures { result ≡ accepts connection_request p.now }
{
    starts(ConnectType::ConnectionRequest, p) & ((byte(p, 3) == 0) & exchanges(p))
}

// A Connection Response, Pending with the fields from HMACSize on, or another Result and nothing more.
fn is_connection_response(p: &[u8]) -> bool
    ensures { result ≡ (accepts pending_response p.now || accepts other_response p.now) }
{
    let result = byte(p, 3);
    let pending = (result == PENDING) & exchanges(p);
    let other = (result <= 3) & (result != PENDING) & (p.len() == 4);
    starts(ConnectType::ConnectionResponse, p) & (pending | other)
}

// A Device Authentication Request or Response: certificate and thumbprint, each after its length, and nothing more.
fn is_device_authentication(p: &[u8]) -> bool
    ensures { result ≡ accepts device_authentication p.now }
{
    let connect = byte(p, 2);
    let certificate = number16(p, 3);
    let thumbprint = number16(p, 5 + certificate as u32);
    let size = 5 + certificate as usize + 2 + thumbprint as usize;
    (number16(p, 0) <= 2)
        & shows_certificate(connect)
        & (1 <= certificate)
        & (certificate <= MOST_CERTIFICATE)
        & (thumbprint <= MOST_THUMBPRINT)
        & (p.len() == size)
}

// An Authentication Done Request: nothing more than mode and type.
fn is_done_request(p: &[u8]) -> bool
    ensures { result ≡ accepts done_request p.now }
{
    starts(ConnectType::DoneRequest, p) & (p.len() == 3)
}

// An Authentication Done Response, with a Status of 0 to 4.
fn is_done_response(p: &[u8]) -> bool
    ensures { result ≡ accepts done_response p.now }
{
    starts(ConnectType::DoneResponse, p) & ((byte(p, 3) <= 4) & (p.len() == 4))
}

// A Presence Response: name, salt and hash, and nothing more.
fn is_presence_response(p: &[u8]) -> bool
    ensures { result ≡ accepts presence_response p.now }
{
    let name = number16(p, 5);
    (byte(p, 0) == DiscoveryType::PresenceResponse.number())
        & (number16(p, 1) <= 2)
        & (name <= MOST_NAME)
        & (p.len() == PRESENCE_SIZE + name as usize)
}

// The list of shapes: message type, plain or sealed, and the bytes.
#[tactic(auto, using(crate::proofs::ByKind::discovery_shapes, crate::proofs::ByKind::plain_shapes, crate::proofs::ByKind::sealed_shapes, crate::proofs::ByKind::no_sealed_discovery, crate::proofs::ByKind::no_others))]
fn is_shaped(kind: u8, sealed: bool, p: &[u8]) -> bool
    ensures { result ≡ is_shaped kind sealed p.now }
{
    match (kind, sealed) {
        (DISCOVERY, false) => is_presence_request(p) | is_presence_response(p),
        (CONNECT, false) => is_connection_request(p) | is_connection_response(p),
        (CONNECT, true) => {
            is_device_authentication(p) | is_done_request(p) | is_done_response(p)
        }
        _ => false,
    }
}

// Refusal 14: a Discovery or Connect payload that has none of the shapes.
#[tactic(auto, unfolding(crate::specs::Shapes::bad_payload))]
pub fn bad_payload(kind: u8, sealed: bool, payload: &[u8]) -> bool
    ensures { result ≡ bad_payload kind sealed payload.now }
{
    matches!(kind, DISCOVERY | CONNECT) && !is_shaped(kind, sealed, payload)
}
