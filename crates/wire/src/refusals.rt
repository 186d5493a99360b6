// SPDX-License-Identifier: MPL-2.0
// Document 01's table "Refusal numbers": what a refusal is, and how a row of a table of refusals is written.
ghost use Rattle.std.specs.Prelude.{◌≡◌, true, false, cond, OnOk, IfErr};
ghost use Rattle.laws.specs.Rows.{unless};
ghost use Rattle.wire.specs.Refusals.{number, refusal_of};

use std::marker::Model;

// Why a message, or a call, is refused: each row of the table by its fault, and with its number.
#[derive(Clone, Copy, Debug, PartialEq, Eq)]
pub enum Refusal {
    // tests/refusals/write: faults
    // Fewer than 42 bytes.
    TooShort = 1,
    // Wrong signature.
    WrongSignature = 2,
    // MessageLength under 42 or not the bytes given.
    WrongLength = 3,
    // Version not 3.
    WrongVersion = 4,
    // Type not 1, 2, 4.
    WrongType = 5,
    // A flag above 8; flags 2 and 4 not alike; sealed Discovery; plain Session.
    WrongFlags = 6,
    // Count 0 or over 64; index not under count; count not 1 outside Session.
    WrongPiece = 7,
    // Chain leaves its room (message less tag), unknown type, type 0 with a size, over 8 entries.
    WrongChain = 8,
    // Sealed part empty or no multiple of 16.
    WrongSealedSize = 9,
    // Keys not 64 bytes.
    WrongKeys = 10,
    // Tag differs.
    WrongTag = 11,
    // Working buffer shorter than the sealed part.
    ShortWorking = 12,
    // Size or padding not as the rule gives.
    WrongPadding = 13,
    // Discovery or Connect payload not as above.
    WrongPayload = 14,
    // Message not allowed in this state, by role.
    NotAllowed = 15,
    // State not 0 and another SessionID; on the gateway's side another SessionID in every state.
    OtherSession = 16,
    // SequenceNumber below the expected one.
    PastSequence = 17,
    // SequenceNumber above the expected one.
    FutureSequence = 18,
    // SequenceNumber is 2^32 − 1.
    LastSequence = 19,
    // Piece not F bytes and not last; last over F; last empty with count over 1; in the writer: Session payload over 16,384.
    WrongPieceSize = 20,
    // Count or channel unlike the first piece taken of this message.
    UnlikeFirstPiece = 21,
    // F × index + piece length exceeds the report buffer; or writer's output too small.
    NoRoom = 22,
    // Index already heard, and the bytes differ from the report buffer's there, or the length from the one taken.
    UnlikeRepeat = 23,
    // F outside 1 to 16,384.
    WrongFragmentSize = 24,
    // Verdict not 0 or 1.
    WrongVerdict = 25,
    // tests/refusals/write: end
}

// All of them, in the order of their numbers.
static REFUSALS: [Refusal; 25] = [
    // tests/refusals/write: rows
    Refusal::TooShort,
    Refusal::WrongSignature,
    Refusal::WrongLength,
    Refusal::WrongVersion,
    Refusal::WrongType,
    Refusal::WrongFlags,
    Refusal::WrongPiece,
    Refusal::WrongChain,
    Refusal::WrongSealedSize,
    Refusal::WrongKeys,
    Refusal::WrongTag,
    Refusal::ShortWorking,
    Refusal::WrongPadding,
    Refusal::WrongPayload,
    Refusal::NotAllowed,
    Refusal::OtherSession,
    Refusal::PastSequence,
    Refusal::FutureSequence,
    Refusal::LastSequence,
    Refusal::WrongPieceSize,
    Refusal::UnlikeFirstPiece,
    Refusal::NoRoom,
    Refusal::UnlikeRepeat,
    Refusal::WrongFragmentSize,
    Refusal::WrongVerdict,
    // tests/refusals/write: end
];

// A refusal that was answered, by its number, which is what contracts see of it. Any byte may stand there: whoever is handed an answer, and asks what
// it says, is answered for every number, also one that no row has.
#[derive(Clone, Copy, PartialEq, Eq)]
pub struct Refused {
    number: u8,
}

impl Model for Refused {
    ghost use Rattle.std.specs.Prelude.{ℕ};

    ghost Value = { ℕ };

    ghost view = { λ r. r.number };

    ghost inverse = { λ n. record { number = n } };
}

impl Refused {
    // The number in document 01.
    pub fn number(self) -> u8
        ensures { result ≡ self }
    {
        self.number
    }

    // The row of the table; of a number that no row has, the first.
    pub fn refusal(self) -> Refusal
        ensures { result ≡ refusal_of self }
    {
        let row = usize::from(self.number).saturating_sub(1);
        if row < 25 {
            return REFUSALS[row];
        }
        Refusal::TooShort
    }
}

impl From<Refusal> for Refused {
    ghost from_gives = { λ refusal refused. refused ≡ number refusal };

    fn from(refusal: Refusal) -> Refused {
        Refused {
            number: refusal as u8,
        }
    }
}

impl From<u8> for Refused {
    ghost from_gives = { λ number refused. refused ≡ number };

    fn from(number: u8) -> Refused {
        Refused { number }
    }
}

impl Refusal {
    // A row of a table of refusals: it refuses where its test holds.
    pub fn when(self, test: bool) -> Result<(), Refused>
        ensures value { result ≡ unless (cond test (number self) 0) tt }
        ensures passed { OnOk result (test ≡ false) }
        ensures refused { IfErr result (λ n. (test ≡ true) × (n ≡ number self)) }
    {
        if test {
            return Err(Refused::from(self));
        }
        Ok(())
    }
}
