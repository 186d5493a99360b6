// SPDX-License-Identifier: MPL-2.0
// What the reader answers, as document 01's number and values.
ghost use Rattle.std.specs.Prelude.{◌≡◌};
ghost use Rattle.message.specs.Answers.{found_message};

use super::reading::FoundMessage;
use wire::answers::{Found, OPENED, PLAIN};
use wire::refusals::Refused;

// The number and the values of the reader's answer. No `From`, since `Found` and `Result` are of other crates.
pub fn found(answer: Result<FoundMessage, Refused>) -> Found
    ensures { result ≡ found_message answer }
{
    match answer {
        Err(refused) => Found::nothing(refused.number()),
        Ok(read) => Found {
            refusal: 0,
            header: read.header,
            sealed: if read.sealed { OPENED } else { PLAIN },
            from: read.from,
            size: read.size,
        },
    }
}
