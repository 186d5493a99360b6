// SPDX-License-Identifier: MPL-2.0
// An answer of the gateway's step, and the request that is due, in numbers.
ghost use Rattle.std.specs.Prelude.{◌≡◌};
ghost use Rattle.gateway.specs.Answers.{due_number, said};

use super::Answer;
use admission::AGAIN;
use joining::answer::Said;

// The kinds of this role's answers; those of the hub's have other numbers, but for Again and a refusal. They are numbers, since C is handed them so.
pub const NEXT: u64 = 7;

pub const NOW_READY: u64 = 8;

pub const NOW_FAILED: u64 = 9;

// The number of no request: no type byte has it.
pub const NOTHING_DUE: u64 = 256;

// The number of the type of the request that is due, or the number of none.
pub fn due_number(due: Option<u8>) -> u64
    ensures { result ≡ due_number due }
{
    match due {
        Some(connect) => connect as u64,
        None => NOTHING_DUE,
    }
}

impl From<Answer> for Said {
    ghost from_gives = { λ answer words. words ≡ said answer };

    // Number and values of what a step answers.
    fn from(answer: Answer) -> Said {
        match answer {
            Answer::Refused(refused) => Said::refused(refused.number()),
            Answer::Next(connect) => Said::words(NEXT, connect as u64, 0),
            Answer::Ready => Said::words(NOW_READY, 0, 0),
            Answer::Failed => Said::words(NOW_FAILED, 0, 0),
            Answer::Again(due) => Said::words(AGAIN, due_number(due), 0),
        }
    }
}
