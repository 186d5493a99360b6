// SPDX-License-Identifier: MPL-2.0
// What a message that the reader read does to a gateway's connection.
ghost use Rattle.std.specs.Prelude.{◌≡◌, ◌+◌, ◌<◌};
ghost use Rattle.payloads.specs.Reading.{connect_type, code_of};
ghost use Rattle.gateway.specs.Client.{refuse, in_state, fails, replied, take, client};
ghost use Rattle.gateway.specs.Step.{hear};

use super::{
    Answer, FAILED, Gateway, READY, Stepped, WAITING_FOR_AUTHENTICATION, WAITING_FOR_DONE,
    WAITING_FOR_RESPONSE,
};
use admission::another_session;
use payloads::PENDING;
use payloads::reading::{code_of, connect_type};
use payloads::types::ConnectType;
use wire::header::{CONNECT, Header};
use wire::refusals::{Refusal, Refused};

// The Status of a Done Response that lets the gateway be Ready; a byte, as the payload has it.
const SUCCESS: u8 = 0;

// A reply by which an enrolment fails: another Result, another Status, a certificate that is not accepted.
fn fails(connect: u8, code: u8, verdict: u8) -> bool
    ensures { result ≡ fails connect code verdict }
{
    match ConnectType::try_from(connect) {
        Ok(ConnectType::ConnectionResponse) => code != PENDING,
        Ok(ConnectType::DoneResponse) => code != SUCCESS,
        Ok(ConnectType::DeviceResponse) => verdict == 0,
        _ => false,
    }
}

impl Gateway {
    // Nothing changes, and the refusal is answered.
    pub(crate) fn refuse(self, refused: Refused) -> Stepped
        ensures { result ≡ refuse self refused }
    {
        Stepped {
            gateway: self,
            answer: Answer::Refused(refused),
        }
    }

    // Only the state is another.
    fn in_state(self, state: u8) -> Gateway
        ensures { result ≡ in_state self state }
    {
        Gateway { state, ..self }
    }

    // A reply that is awaited in one state: there it is taken, later it is Again, and before it is not allowed.
    fn replied(self, awaited: u8, answer: Answer, due: Option<u8>) -> Stepped
        requires { awaited < 3 }
        ensures { result ≡ replied self awaited answer due }
    {
        let state = self.state;
        if state == awaited {
            return Stepped {
                gateway: self.in_state(awaited + 1),
                answer,
            };
        }
        if awaited < state {
            return Stepped {
                gateway: self,
                answer: Answer::Again(due),
            };
        }
        self.refuse(Refusal::NotAllowed.into())
    }

    // A reply by which the enrolment does not fail.
    #[tactic(auto, unfolding(crate::specs::Client::take))]
    fn take(self, connect: u8) -> Stepped
        ensures { result ≡ take self connect }
    {
        match ConnectType::try_from(connect) {
            Ok(ConnectType::ConnectionResponse) => self.replied(
                WAITING_FOR_RESPONSE,
                Answer::Next(ConnectType::DeviceRequest.number()),
                Some(ConnectType::DeviceRequest.number()),
            ),
            Ok(ConnectType::DeviceResponse) => self.replied(
                WAITING_FOR_AUTHENTICATION,
                Answer::Next(ConnectType::DoneRequest.number()),
                Some(ConnectType::DoneRequest.number()),
            ),
            Ok(ConnectType::DoneResponse) => self.replied(WAITING_FOR_DONE, Answer::Ready, None),
            _ => self.refuse(Refusal::NotAllowed.into()),
        }
    }

    // A Connect message.
    #[tactic(auto, unfolding(crate::specs::Client::client))]
    fn connect(self, payload: &[u8], verdict: u8) -> Stepped
        ensures { result ≡ client self (connect_type payload.now) (code_of payload.now) verdict }
    {
        if READY < self.state {
            return self.refuse(Refusal::NotAllowed.into());
        }
        let connect = connect_type(payload);
        if fails(connect, code_of(payload), verdict) {
            return Stepped {
                gateway: self.in_state(FAILED),
                answer: Answer::Failed,
            };
        }
        self.take(connect)
    }

    // A message that the reader read.
    #[tactic(auto, unfolding(crate::specs::Step::hear))]
    pub(crate) fn hear(self, header: Header, payload: &[u8], verdict: u8) -> Stepped
        ensures { result ≡ hear self header payload.now verdict }
    {
        if another_session(header, self.session) {
            return self.refuse(Refusal::OtherSession.into());
        }
        if header.kind == CONNECT {
            return self.connect(payload, verdict);
        }
        self.refuse(Refusal::NotAllowed.into())
    }
}
