// SPDX-License-Identifier: MPL-2.0
// What a message that the reader read does to a connection and to the report buffer.
ghost use Rattle.std.specs.Prelude.{◌≡◌};
ghost use Rattle.joining.specs.Join.{join, report_after};
ghost use Rattle.sha256.specs.Digests.{digest};
ghost use Rattle.hub.specs.Hear.{certificate, connect, piece_in, joined, is_foreign, hear, report_heard};

use super::{Answer, Connection, READY, Stepped, WAITING};
use admission::another_session;
use joining::Piece;
use payloads::reading::{certificate_of, connect_type, read_request};
use payloads::types::ConnectType;
use wire::header::{CONNECT, Header, SESSION};
use wire::refusals::Refusal;

// The SHA-256 of the certificate in a Device Authentication Request.
#[tactic(auto, using(crate::proofs::Certificates::certificate_inside))]
fn certificate_digest(payload: &[u8]) -> [u8; 32]
    ensures { result ≡ digest (certificate payload.now) }
{
    let place = certificate_of(payload);
    let end = place.from + place.size;
    sha256::digest(&payload[place.from..end])
}

impl Connection {
    // A Connect message.
    #[tactic(auto, unfolding(crate::specs::Hear::connect, crate::specs::Host::host))]
    fn connect(self, session: u64, payload: &[u8], verdict: u8) -> Stepped
        ensures { result ≡ connect self session payload.now verdict }
    {
        match ConnectType::try_from(connect_type(payload)) {
            Ok(ConnectType::ConnectionRequest) => self.request(session, read_request(payload)),
            Ok(ConnectType::DeviceRequest) => {
                self.authenticate(certificate_digest(payload), verdict)
            }
            Ok(ConnectType::DoneRequest) => self.finish(),
            _ => self.refuse(Refusal::NotAllowed.into()),
        }
    }

    // A Session message in state 3.
    fn session(self, header: Header, payload: &[u8], report: &mut [u8]) -> Stepped
        ensures value { result ≡ joined self (join self.size self.progress (piece_in header) payload.now report.old) }
        ensures new_report { report.new ≡ report_after self.size self.progress (piece_in header) payload.now
            report.old }
    {
        let piece = Piece {
            sequence: header.sequence,
            channel: header.channel,
            count: header.count as usize,
            index: header.index as usize,
        };
        let joined = self.progress.join(self.size, piece, payload, report);
        Stepped {
            connection: Connection {
                progress: joined.progress,
                ..self
            },
            answer: joined.answer.into(),
        }
    }

    // 16 applies: another SessionID than that of the Connection Request.
    fn is_foreign(self, header: Header) -> bool
        ensures { result ≡ is_foreign self header }
    {
        (self.state != WAITING) & another_session(header, self.session)
    }

    // A message that the reader read. Not inlined, what it keeps is off the stack while the message is opened: when it was tried a step took 2,840
    // bytes in place of 3,640, for 94 instructions more of 26,376.
    #[tactic(auto, unfolding(crate::specs::Hear::hear, crate::specs::Hear::report_heard))]
    #[inline(never)]
    pub(crate) fn hear(
        self,
        header: Header,
        payload: &[u8],
        report: &mut [u8],
        verdict: u8,
    ) -> Stepped
        ensures value { result ≡ hear self header payload.now report.old verdict }
        ensures new_report { report.new ≡ report_heard self header payload.now report.old }
    {
        if self.is_foreign(header) {
            return self.refuse(Refusal::OtherSession.into());
        }
        if header.kind == CONNECT {
            return self.connect(header.session, payload, verdict);
        }
        if (header.kind == SESSION) & (self.state == READY) {
            return self.session(header, payload, report);
        }
        self.refuse(Refusal::NotAllowed.into())
    }
}
