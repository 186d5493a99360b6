// SPDX-License-Identifier: MPL-2.0
// Enrolment: what a Connect message does in each state.
ghost use Rattle.std.specs.Prelude.{◌≡◌};
ghost use Rattle.hub.specs.Host.{request_rows, device_rows, done_rows, hosted, knows, refuse, requested, with_digest_and_state};

use super::{Answer, Connection, FAILED, PASSED, READY, REQUESTED, Stepped, WAITING};
use octets::compare::alike;
use payloads::reading::Request;
use payloads::types::ConnectType;
use wire::refusals::{Refusal, Refused};

impl Connection {
    // Nothing changes, and the refusal is answered.
    pub(crate) fn refuse(self, refused: Refused) -> Stepped
        ensures { result ≡ refuse self refused }
    {
        Stepped {
            connection: self,
            answer: Answer::Refused(refused),
        }
    }

    // The request is remembered.
    fn requested(self, session: u64, request: Request) -> Connection
        ensures { result ≡ requested self session request }
    {
        let Request { nonce, x, y } = request;
        Connection {
            state: REQUESTED,
            session,
            nonce,
            x,
            y,
            ..self
        }
    }

    // The certificate's digest is remembered, in this state.
    fn with_digest_and_state(self, digest: [u8; 32], state: u8) -> Connection
        ensures { result ≡ with_digest_and_state self digest state }
    {
        Connection {
            digest,
            state,
            ..self
        }
    }

    // The request has the nonce, X and Y that are remembered.
    fn knows(self, request: Request) -> bool
        ensures { result ≡ knows self request }
    {
        alike(&self.nonce, &request.nonce) & alike(&self.x, &request.x) & alike(&self.y, &request.y)
    }

    // A Connection Request.
    pub(crate) fn request(self, session: u64, request: Request) -> Stepped
        ensures { result ≡ hosted self (request_rows self session request) }
    {
        let state = self.state;
        if state == WAITING {
            return Stepped {
                connection: self.requested(session, request),
                answer: Answer::Reply(ConnectType::ConnectionResponse.number()),
            };
        }
        if (REQUESTED <= state) & (state <= READY) & self.knows(request) {
            return Stepped {
                connection: self,
                answer: Answer::Again(ConnectType::ConnectionResponse.number()),
            };
        }
        self.refuse(Refusal::NotAllowed.into())
    }

    // A Device Authentication Request whose certificate has this digest.
    pub(crate) fn authenticate(self, digest: [u8; 32], verdict: u8) -> Stepped
        ensures { result ≡ hosted self (device_rows self digest verdict) }
    {
        let state = self.state;
        if (state == REQUESTED) & (verdict == 1) {
            return Stepped {
                connection: self.with_digest_and_state(digest, PASSED),
                answer: Answer::Reply(ConnectType::DeviceResponse.number()),
            };
        }
        if (state == REQUESTED) & (verdict == 0) {
            return Stepped {
                connection: self.with_digest_and_state(digest, FAILED),
                answer: Answer::Failure,
            };
        }
        if (PASSED <= state) & (state <= READY) & alike(&self.digest, &digest) {
            return Stepped {
                connection: self,
                answer: Answer::Again(ConnectType::DeviceResponse.number()),
            };
        }
        self.refuse(Refusal::NotAllowed.into())
    }

    // An Authentication Done Request.
    pub(crate) fn finish(self) -> Stepped
        ensures { result ≡ hosted self (done_rows self) }
    {
        let state = self.state;
        if state == PASSED {
            return Stepped {
                connection: self.with_digest_and_state(self.digest, READY),
                answer: Answer::Reply(ConnectType::DoneResponse.number()),
            };
        }
        if state == READY {
            return Stepped {
                connection: self,
                answer: Answer::Again(ConnectType::DoneResponse.number()),
            };
        }
        self.refuse(Refusal::NotAllowed.into())
    }
}
