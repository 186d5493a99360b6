// SPDX-License-Identifier: MPL-2.0
// A Connect payload taken apart: which of the six it is, and where in it what it says stands.
ghost use Rattle.std.specs.Prelude.{◌≡◌};
ghost use Rattle.payloads.specs.Reading.{connection_mode, connect_type, code_of, certificate_of, thumbprint_of};
ghost use Rattle.payloads.specs.Connect.{nothing_connect, not_connect, said_connect, read_connect};

use crate::reading::{Span, certificate_of, code_of, connect_type, connection_mode, thumbprint_of};
use crate::shapes::bad_payload;
use crate::types::ConnectType;
use crate::{KEY_SIZE, NONCE_AT, PENDING, X_AT, Y_AT};
use wire::header::CONNECT;
use wire::refusals::{Refusal, Refused};

// Where nonce, X and Y lie in a payload that has them.
const NONCE: Span = Span {
    from: NONCE_AT,
    size: 8,
};

const X: Span = Span {
    from: X_AT,
    size: KEY_SIZE as usize,
};

const Y: Span = Span {
    from: Y_AT,
    size: KEY_SIZE as usize,
};

// What a Connect payload says: its type and mode, its Result or Status, and the places of its parts. What its type has not is 0. Type,
// mode, Result and Status are the numbers that `ConnectBack` speaks of, and that C is handed.
#[derive(Clone, Copy, Default)]
pub struct FoundConnect {
    pub connect: u8,
    pub mode: u16,
    pub code: u8,
    pub nonce: Span,
    pub x: Span,
    pub y: Span,
    pub certificate: Span,
    pub thumbprint: Span,
}

impl FoundConnect {
    // What stands beside a refusal: all is 0.
    pub fn nothing() -> FoundConnect
        ensures { result ≡ nothing_connect }
    {
        FoundConnect::default()
    }
}

// 14 refuses the payload, plain and sealed.
fn not_connect(p: &[u8]) -> bool
    ensures { result ≡ not_connect p.now }
{
    bad_payload(CONNECT, false, p) & bad_payload(CONNECT, true, p)
}

// What a Connect payload says: only what its type has.
fn said_connect(p: &[u8]) -> FoundConnect
    ensures { result ≡ said_connect (connect_type p.now) (connection_mode p.now) (code_of p.now) (certificate_of p.now) (thumbprint_of p.now) }
{
    let said = FoundConnect {
        connect: connect_type(p),
        mode: connection_mode(p),
        ..FoundConnect::default()
    };
    let code = code_of(p);
    match ConnectType::try_from(said.connect) {
        Ok(ConnectType::ConnectionRequest) => FoundConnect {
            nonce: NONCE,
            x: X,
            y: Y,
            ..said
        },
        Ok(ConnectType::ConnectionResponse) if code == PENDING => FoundConnect {
            code,
            nonce: NONCE,
            x: X,
            y: Y,
            ..said
        },
        Ok(ConnectType::ConnectionResponse | ConnectType::DoneResponse) => {
            FoundConnect { code, ..said }
        }
        Ok(ConnectType::DeviceRequest | ConnectType::DeviceResponse) => FoundConnect {
            certificate: certificate_of(p),
            thumbprint: thumbprint_of(p),
            ..said
        },
        Ok(ConnectType::DoneRequest) | Err(_) => said,
    }
}

// Takes a Connect payload apart, or refuses with 14 what is none.
#[tactic(auto, unfolding(crate::specs::Connect::read_connect))]
pub fn read_connect(payload: &[u8]) -> Result<FoundConnect, Refused>
    ensures { result ≡ read_connect payload.now }
{
    Refusal::WrongPayload.when(not_connect(payload))?;
    Ok(said_connect(payload))
}
