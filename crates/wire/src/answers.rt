// SPDX-License-Identifier: MPL-2.0
// What was read of a message, as document 01's number and values: one shape for the reader of headers and the reader of messages.
ghost use Rattle.std.specs.Prelude.{◌≡◌};
ghost use Rattle.wire.specs.Answers.{nothing, found_header};

use super::header::{FoundHeader, Header, is_sealed};
use super::refusals::Refused;

// Where a part is. They are numbers, since C is handed them so (the words of `hub_read`).
// The payload stands in the message, which was plain.
pub const PLAIN: u8 = 0;
// The payload stands in the working buffer, into which it was opened.
pub const OPENED: u8 = 1;
// The part is still sealed, and stands in the message.
pub const SEALED: u8 = 2;

// What was read of a message, in the numbers that C is handed: the refusal's number, 0 where there is none; the header; and the part: what it is,
// from where, how many bytes.
#[derive(Clone, Copy)]
pub struct Found {
    pub refusal: u8,
    pub header: Header,
    pub sealed: u8,
    pub from: usize,
    pub size: usize,
}

impl Found {
    // Nothing, for this refusal: all else is 0.
    pub fn nothing(refusal: u8) -> Found
        ensures { result ≡ nothing refusal }
    {
        Found {
            refusal,
            header: Header::empty(),
            sealed: PLAIN,
            from: 0,
            size: 0,
        }
    }
}

impl From<Result<FoundHeader, Refused>> for Found {
    ghost from_gives = { λ answer found. found ≡ found_header answer };

    // The number and the values of the reader of headers' answer.
    fn from(answer: Result<FoundHeader, Refused>) -> Found {
        match answer {
            Err(refused) => Found::nothing(refused.number()),
            Ok(read) => Found {
                refusal: 0,
                header: read.header,
                sealed: if is_sealed(read.header.flags) {
                    SEALED
                } else {
                    PLAIN
                },
                from: read.start,
                size: read.size,
            },
        }
    }
}
