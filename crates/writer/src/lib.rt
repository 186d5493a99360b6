// SPDX-License-Identifier: MPL-2.0
// Writing what may stand on the wire: the common header, the payloads of Discovery and Connect. Each writer puts its bytes
// at the start of an output and answers how many, or refuses and leaves the output as it was.
#![tactic(auto)]

pub mod header;
pub mod payload;

ghost use Rattle.std.specs.Prelude.{◌≡◌};
ghost use Rattle.laws.specs.Rows.{unless};
ghost use Rattle.writer.specs.Written.{put_refusal};
ghost use Rattle.writer.specs.Answers.{wrote};

use wire::refusals::{Refusal, Refused};

// The answer in the numbers that C is handed: the refusal's, 0 for none, and how many bytes were written, 0 where there is one.
#[derive(Clone, Copy)]
pub struct Wrote {
    pub refusal: u8,
    pub size: usize,
}

impl From<Result<usize, Refused>> for Wrote {
    ghost from_gives = { λ answer numbers. numbers ≡ wrote answer };

    // The numbers of what a writer answers.
    fn from(answer: Result<usize, Refused>) -> Wrote {
        match answer {
            Err(refused) => Wrote {
                refusal: refused.number(),
                size: 0,
            },
            Ok(size) => Wrote { refusal: 0, size },
        }
    }
}

// The refusals of a writer whose bytes would have no shape, or no room.
#[tactic(auto, unfolding(crate::specs::Written::put_refusal))]
pub(crate) fn put_refusal(bad: bool, size: usize, room: usize) -> Result<(), Refused>
    ensures { result ≡ unless (put_refusal bad size room) tt }
{
    Refusal::WrongPayload.when(bad)?;
    Refusal::NoRoom.when(room < size)
}
