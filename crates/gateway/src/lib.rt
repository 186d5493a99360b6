// SPDX-License-Identifier: MPL-2.0
// A connection of the gateway: opening it, the request that is due, and what each message does to it (document 01, "Gateway states"). What it has in
// common with the hub's stands in `admission`; the rest looks alike only, since it holds another connection and another answer.
#![tactic(auto)]

mod hear;
mod numbers;
mod step;

ghost use Rattle.std.specs.Prelude.{◌≡◌};
ghost use Rattle.gateway.specs.Opening.{opened};
ghost use Rattle.gateway.specs.Answers.{due_in};

use joining::cut::bad_size;
pub use numbers::due_number;
use payloads::types::ConnectType;
use wire::refusals::{Refusal, Refused};

// What a gateway remembers of its enrolment. It goes through a step as a value and comes back as one.
#[derive(Clone, Copy)]
pub struct Gateway {
    // The fragment size.
    pub size: usize,
    // One of the states below; a greater number stands for none of them.
    pub state: u8,
    // The SessionID that its requests carry.
    pub session: u64,
}

// The states. They are bytes and no enum, since any byte of a stored connection is a state and comes back as it was (`GatewayStored`, crates/state).
// Each of the first three is named by the reply that is awaited: the Connection Response,
pub const WAITING_FOR_RESPONSE: u8 = 0;

// the Device Authentication Response,
pub const WAITING_FOR_AUTHENTICATION: u8 = 1;

// the Authentication Done Response.
pub const WAITING_FOR_DONE: u8 = 2;

// Ready to send reports.
pub const READY: u8 = 3;

// Another Result or Status came, or a verdict was 0: all is refused.
pub const FAILED: u8 = 4;

// What a step answers: five cases, each with its number at the C boundary (`said`), so that it is no Result. The type of a request is a byte, as in
// the hub's answers (`ToldApartByGateway`, crates/promises).
#[derive(Clone, Copy)]
pub enum Answer {
    // The refusal; the connection is as it was.
    Refused(Refused),
    // The awaited reply was taken: the type of the next request.
    Next(u8),
    // The last reply was taken.
    Ready,
    // Another Result or Status, or a verdict of 0.
    Failed,
    // A reply that was taken before, and nothing has changed: the request that follows it, once more, if one does.
    Again(Option<u8>),
}

// A connection that was opened; the refusal is 0 where there is none. It is no Result: beside 24 there is a connection too, all zero, as document 01
// says and `GatewayOpens` (crates/promises) states.
#[derive(Clone, Copy)]
pub struct Opened {
    pub refusal: u8,
    pub gateway: Gateway,
}

// The next connection, with the answer beside it.
#[derive(Clone, Copy)]
pub struct Stepped {
    pub gateway: Gateway,
    pub answer: Answer,
}

impl Gateway {
    // Opens a connection of this fragment size and SessionID; a size outside 1 to 16,384 is refused with 24, and the connection is all zero.
    #[tactic(auto, unfolding(crate::specs::Opening::opened))]
    pub fn open(size: usize, session: u64) -> Opened
        ensures { result ≡ opened size session }
    {
        if bad_size(size) {
            return Opened {
                refusal: Refused::from(Refusal::WrongFragmentSize).number(),
                gateway: Gateway {
                    size: 0,
                    state: WAITING_FOR_RESPONSE,
                    session: 0,
                },
            };
        }
        Opened {
            refusal: 0,
            gateway: Gateway {
                size,
                state: WAITING_FOR_RESPONSE,
                session,
            },
        }
    }

    // The type of the request that is due, if one is: the same until its reply is taken. The caller has the writer make it, or sends it once more.
    pub fn due(self) -> Option<u8>
        ensures { result ≡ due_in self.state }
    {
        match self.state {
            WAITING_FOR_RESPONSE => Some(ConnectType::ConnectionRequest.number()),
            WAITING_FOR_AUTHENTICATION => Some(ConnectType::DeviceRequest.number()),
            WAITING_FOR_DONE => Some(ConnectType::DoneRequest.number()),
            _ => None,
        }
    }
}
