// SPDX-License-Identifier: MPL-2.0
// A connection of the hub: opening it, and what each message does to it (document 01, "Host states").
#![tactic(auto)]

mod enrol;
mod hear;
mod step;

ghost use Rattle.std.specs.Prelude.{◌≡◌};
ghost use Rattle.hub.specs.Opening.{blank, opened};
ghost use Rattle.hub.specs.Answers.{said, answer_of};

use admission::AGAIN;
use joining::answer::{COMPLETE, REPEAT, Said, TAKEN};
use joining::{Arrival, Progress};
use wire::refusals::{Refusal, Refused};

// What the hub remembers of a gateway. It goes through a step as a value and comes back as one.
#[derive(Clone, Copy)]
pub struct Connection {
    // The fragment size.
    pub size: usize,
    // One of the states below; a greater number stands for none of them.
    pub state: u8,
    // The SessionID, nonce and public key of the Connection Request.
    pub session: u64,
    pub nonce: [u8; 8],
    pub x: [u8; 32],
    pub y: [u8; 32],
    // The SHA-256 of the certificate.
    pub digest: [u8; 32],
    // How far the Session message that is expected has come.
    pub progress: Progress,
}

// The states. They are bytes and no enum, since any byte of a stored connection is a state and comes back as it was (`Whole`, crates/state).
// Waiting for a Connection Request.
pub const WAITING: u8 = 0;

// Requested; waiting for the gateway's authentication.
pub const REQUESTED: u8 = 1;

// Authentication has passed.
pub const PASSED: u8 = 2;

// Ready for reports.
pub const READY: u8 = 3;

// A verdict was 0: all is refused.
pub const FAILED: u8 = 4;

// What a step answers: seven cases, each with its number at the C boundary (`said`), so that it is no Result. The type of a reply is a byte, made of
// `ConnectType`, since `said` answers for any byte and tells every two apart (`ToldApart`, crates/promises).
#[derive(Clone, Copy)]
pub enum Answer {
    // The refusal; connection and report buffer are as they were.
    Refused(Refused),
    // The type of the reply that the caller has the writer make.
    Reply(u8),
    // A repeated enrolment step: the same reply once more, and nothing has changed.
    Again(u8),
    // Authentication Failure, which the caller makes without the writer.
    Failure,
    // A piece was written; how many different ones of its message have come.
    Taken(usize),
    // A piece that had come before, with the same bytes.
    Repeat(usize),
    // The last missing piece was written: the report is the first `length` bytes of the report buffer.
    Complete { length: usize, heard: usize },
}

// The kinds of a step's answers that neither a piece has nor the other role: numbers, since C is handed them so.
pub const REPLY: u64 = 1;

pub const FAILURE: u64 = 3;

// The Status of the reply of type 7; a reply of another type has none, and 0 stands there too.
const DONE_STATUS: u64 = 0;

// A connection that was opened; the refusal is 0 where there is none. It is no Result: beside 24 there is a connection too, all zero, as document 01
// says and `OpenerExact` (crates/promises) states.
#[derive(Clone, Copy)]
pub struct Opened {
    pub refusal: u8,
    pub connection: Connection,
}

// The next connection, with the answer beside it.
#[derive(Clone, Copy)]
pub struct Stepped {
    pub connection: Connection,
    pub answer: Answer,
}

impl From<Arrival> for Answer {
    ghost from_gives = { λ arrival answer. answer ≡ answer_of arrival };

    // The arrival of a piece, as a step's answer.
    fn from(arrival: Arrival) -> Answer {
        match arrival {
            Arrival::Refused(refused) => Answer::Refused(refused),
            Arrival::Taken(k) => Answer::Taken(k),
            Arrival::Repeat(k) => Answer::Repeat(k),
            Arrival::Complete { length, heard } => Answer::Complete { length, heard },
        }
    }
}

impl From<Answer> for Said {
    ghost from_gives = { λ answer words. words ≡ said answer };

    // Number and values of what a step answers.
    fn from(answer: Answer) -> Said {
        match answer {
            Answer::Refused(refused) => Said::refused(refused.number()),
            Answer::Reply(connect) => Said::words(REPLY, connect as u64, DONE_STATUS),
            Answer::Again(connect) => Said::words(AGAIN, connect as u64, DONE_STATUS),
            Answer::Failure => Said::words(FAILURE, 0, 0),
            Answer::Taken(heard) => Said::words(TAKEN, heard as u64, 0),
            Answer::Repeat(heard) => Said::words(REPEAT, heard as u64, 0),
            Answer::Complete { length, heard } => {
                Said::words(COMPLETE, heard as u64, length as u64)
            }
        }
    }
}

impl Connection {
    // Nothing is remembered but the fragment size.
    fn blank(size: usize) -> Connection
        ensures { result ≡ blank size }
    {
        Connection {
            size,
            state: WAITING,
            session: 0,
            nonce: [0u8; 8],
            x: [0u8; 32],
            y: [0u8; 32],
            digest: [0u8; 32],
            progress: Progress::expecting(0),
        }
    }

    // Opens a connection of this fragment size; outside 1 to 16,384 it is refused with 24, and the connection is all zero.
    #[tactic(auto, unfolding(crate::specs::Opening::opened))]
    pub fn open(size: usize) -> Opened
        ensures { result ≡ opened size }
    {
        if joining::cut::bad_size(size) {
            return Opened {
                refusal: Refused::from(Refusal::WrongFragmentSize).number(),
                connection: Connection::blank(0),
            };
        }
        Opened {
            refusal: 0,
            connection: Connection::blank(size),
        }
    }
}
