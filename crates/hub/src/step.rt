// SPDX-License-Identifier: MPL-2.0
// A step: one message on a connection.
ghost use Rattle.std.specs.Prelude.{◌≡◌};
ghost use Rattle.admission.specs.Admission.{working_admitted};
ghost use Rattle.hub.specs.Step.{step, report_stepped};

use super::{Connection, Stepped};

impl Connection {
    // One message, with the keys, the working buffer, the report buffer and the verdict on the gateway's certificate: a byte, since one above 1 is
    // answered with 25 (`StepExact`, crates/promises).
    #[tactic(auto, unfolding(crate::specs::Step::step, crate::specs::Step::report_stepped))]
    pub fn step(
        self,
        message: &[u8],
        keys: &[u8],
        working: &mut [u8],
        report: &mut [u8],
        verdict: u8,
    ) -> Stepped
        ensures value { result ≡ step self message.now keys.now working.old report.old verdict }
        ensures new_report { report.new ≡ report_stepped self message.now keys.now working.old
            report.old verdict }
        ensures new_working { working.new ≡ working_admitted self.size verdict message.now keys.now
            working.old }
    {
        let read = admission::admit(self.size, verdict, message, keys, working);
        match read {
            Err(refused) => self.refuse(refused),
            Ok(found) => {
                let payload = message::payload::payload(message, working, read);
                self.hear(found.header, payload, report, verdict)
            }
        }
    }
}
