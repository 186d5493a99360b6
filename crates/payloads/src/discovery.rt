// SPDX-License-Identifier: MPL-2.0
// A Discovery payload taken apart: which of the two it is, and where in it what it says stands.
ghost use Rattle.std.specs.Prelude.{◌≡◌};
ghost use Rattle.payloads.specs.Discovery.{nothing_discovery, said_response, read_discovery};

use crate::reading::Span;
use crate::shapes::bad_payload;
use crate::types::DiscoveryType;
use crate::{HASH_SIZE, NAME_AT, SALT_SIZE};
use octets::numbers::{byte, number16};
use wire::header::DISCOVERY;
use wire::refusals::{Refusal, Refused};

// What a Discovery payload says: its type, and of a Presence Response mode, device type and the places of its parts. Of a Presence Request all
// else is 0. The type is the number that `PresenceBack` speaks of, and that C is handed.
#[derive(Clone, Copy, Default)]
pub struct FoundDiscovery {
    pub discovery: u8,
    pub mode: u16,
    pub device: u16,
    pub name: Span,
    pub salt: Span,
    pub hash: Span,
}

impl FoundDiscovery {
    // What a Presence Request says, and what stands beside a refusal: all is 0.
    pub fn nothing() -> FoundDiscovery
        ensures { result ≡ nothing_discovery }
    {
        FoundDiscovery::default()
    }
}

// What a Presence Response says whose name has this size.
fn said_response(mode: u16, device: u16, size: u16) -> FoundDiscovery
    ensures { result ≡ said_response mode device size }
{
    let n = size as usize;
    FoundDiscovery {
        discovery: DiscoveryType::PresenceResponse.number(),
        mode,
        device,
        name: Span {
            from: NAME_AT,
            size: n,
        },
        salt: Span {
            from: NAME_AT + n,
            size: SALT_SIZE,
        },
        hash: Span {
            from: NAME_AT + n + SALT_SIZE,
            size: HASH_SIZE,
        },
    }
}

// Takes a Discovery payload apart, or refuses with 14 what is none.
#[tactic(auto, unfolding(crate::specs::Discovery::read_discovery))]
pub fn read_discovery(payload: &[u8]) -> Result<FoundDiscovery, Refused>
    ensures { result ≡ read_discovery payload.now }
{
    Refusal::WrongPayload.when(bad_payload(DISCOVERY, false, payload))?;
    if byte(payload, 0) == DiscoveryType::PresenceRequest.number() {
        return Ok(FoundDiscovery::nothing());
    }
    Ok(said_response(
        number16(payload, 1),
        number16(payload, 3),
        number16(payload, 5),
    ))
}
