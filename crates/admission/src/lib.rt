// SPDX-License-Identifier: MPL-2.0
// What a step does in either role before its states are asked: 25, 24, then the reader (1 to 14); and the test of 16.
#![tactic(auto)]

ghost use Rattle.std.specs.Prelude.{◌≡◌, length};
ghost use Rattle.admission.specs.Admission.{admit, working_admitted, another_session};

use joining::cut::bad_size;
use message::reading::FoundMessage;
use wire::header::{DISCOVERY, Header};
use wire::refusals::{Refusal, Refused};

// The kind of the answer that both roles give: Again; a number, since C is handed it so.
pub const AGAIN: u64 = 2;

// What the reader answers, or 25 or 24 before it: these look at no message.
#[tactic(auto, unfolding(crate::specs::Admission::admit, crate::specs::Admission::working_admitted))]
pub fn admit(
    size: usize,
    verdict: u8,
    message: &[u8],
    keys: &[u8],
    working: &mut [u8],
) -> Result<FoundMessage, Refused>
    ensures value { result ≡ admit size verdict message.now keys.now (length working.old) }
    ensures new_working { working.new ≡ working_admitted size verdict message.now keys.now working.old }
{
    Refusal::WrongVerdict.when(1 < verdict)?;
    Refusal::WrongFragmentSize.when(bad_size(size))?;
    message::reading::read(message, keys, working)
}

// What 16 asks in either role: another SessionID than this one. Discovery skips 16.
pub fn another_session(header: Header, session: u64) -> bool
    ensures { result ≡ another_session header session }
{
    (header.kind != DISCOVERY) & (header.session != session)
}
