// SPDX-License-Identifier: MPL-2.0
// An answer in document 01's numbers: of a piece that arrives here, of a step in the crates above.
ghost use Rattle.std.specs.Prelude.{◌≡◌};
ghost use Rattle.joining.specs.Answers.{words, refused, arrived};

use super::Arrival;

// The kinds of a piece's answers; a refusal is 0. A step of the hub has 1 to 3 besides, one of the gateway 2 and 7 to 9. They are numbers, since C is
// handed them so.
pub const TAKEN: u64 = 4;

pub const REPEAT: u64 = 5;

pub const COMPLETE: u64 = 6;

// An answer's number and values, as C is handed them. A value that its case does not have is 0, and beside a refusal all is 0.
#[derive(Clone, Copy)]
pub struct Said {
    // The refusal's number, 0 where there is none.
    pub refusal: u8,
    // Which case it is: 0 Refused, 1 Reply, 2 Again, 3 Failure, 4 Taken, 5 Repeat, 6 Complete; on the gateway's side 7 Next, 8 Ready, 9 Failed.
    pub kind: u64,
    // How many different pieces have come; of a reply, and of a request, its Connect type, and 256 for no request.
    pub value: u64,
    // Of Complete the report's length; of a reply its Status.
    pub detail: u64,
}

impl Said {
    // An answer that is no refusal.
    pub fn words(kind: u64, value: u64, detail: u64) -> Said
        ensures { result ≡ words kind value detail }
    {
        Said {
            refusal: 0,
            kind,
            value,
            detail,
        }
    }

    // A refusal.
    pub fn refused(number: u8) -> Said
        ensures { result ≡ refused number }
    {
        Said {
            refusal: number,
            kind: 0,
            value: 0,
            detail: 0,
        }
    }
}

impl From<Arrival> for Said {
    ghost from_gives = { λ arrival words. words ≡ arrived arrival };

    // Number and values of what a piece is answered.
    fn from(arrival: Arrival) -> Said {
        match arrival {
            Arrival::Refused(refused) => Said::refused(refused.number()),
            Arrival::Taken(heard) => Said::words(TAKEN, heard as u64, 0),
            Arrival::Repeat(heard) => Said::words(REPEAT, heard as u64, 0),
            Arrival::Complete { length, heard } => {
                Said::words(COMPLETE, heard as u64, length as u64)
            }
        }
    }
}
