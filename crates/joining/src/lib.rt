// SPDX-License-Identifier: MPL-2.0
// Cutting a report into pieces and joining them again: document 01, "Cutting and joining".
#![tactic(auto)]

pub mod answer;
pub mod cut;
mod heard;
mod held;
mod placed;

ghost use Rattle.std.specs.Prelude.{◌≡◌};
ghost use Rattle.joining.specs.Join.{bad_index, join, report_after, expecting};

use heard::{Marked, PIECES};
use held::Held;
use wire::refusals::Refused;

// What a connection remembers of the message that it expects.
#[derive(Clone, Copy)]
pub struct Progress {
    // The SequenceNumber that is expected.
    pub expected: u32,
    // Which indexes have been heard.
    pub heard: [bool; PIECES],
    // Count and channel of the first piece taken, 0 before it; and the last piece's length, 0 until it is taken. They are no Option: any bytes of a
    // state are a connection's (`Whole` of state), so they may be there while nothing is heard.
    pub count: usize,
    pub channel: u64,
    pub last: u16,
}

// What a Session message's header says of the piece that it brings.
#[derive(Clone, Copy)]
pub struct Piece {
    pub sequence: u32,
    pub channel: u64,
    pub count: usize,
    pub index: usize,
}

// What the arrival of a piece is answered. Taken, Repeat and `heard` tell how many different pieces of its message have come. It is no Result: it has
// four cases, each with its number at the C boundary (`arrived`).
#[derive(Clone, Copy)]
pub enum Arrival {
    // The piece is refused: what is remembered is as it was.
    Refused(Refused),
    Taken(usize),
    Repeat(usize),
    Complete { length: usize, heard: usize },
}

// What is remembered after a piece, and the answer to it.
#[derive(Clone, Copy)]
pub struct Joined {
    pub progress: Progress,
    pub answer: Arrival,
}

impl Piece {
    // 7 applies: the count is 0 or over 64, or the index is not under it.
    #[tactic(auto, unfolding(wire::specs::Fields::most_pieces))]
    fn has_bad_index(self) -> bool
        ensures { result ≡ bad_index self.count self.index }
    {
        (PIECES < self.count) | (self.count <= self.index)
    }
}

impl Progress {
    // Nothing is heard of the message with this number.
    #[tactic(auto, unfolding(wire::specs::Fields::most_pieces))]
    pub fn expecting(number: u32) -> Progress
        ensures { result ≡ expecting number }
    {
        Progress {
            expected: number,
            heard: [false; PIECES],
            count: 0,
            channel: 0,
            last: 0,
        }
    }

    // A piece with its header's numbers and its bytes comes, on a connection of this fragment size.
    #[tactic(auto, using(crate::proofs::Refusals::fitting), unfolding(crate::specs::Join::join, crate::specs::Join::report_after, wire::specs::Fields::most_pieces))]
    pub fn join(self, size: usize, piece: Piece, payload: &[u8], report: &mut [u8]) -> Joined
        ensures value { result ≡ join size self piece payload.now report.old }
        ensures new_report { report.new ≡ report_after size self piece payload.now report.old }
    {
        let heard = self.heard;
        let held = Held {
            progress: self,
            heard: &heard,
        };
        let placed = match held.place(size, piece, payload, report) {
            Ok(placed) => placed,
            Err(refused) => {
                return Joined {
                    progress: self,
                    answer: Arrival::Refused(refused),
                };
            }
        };
        // A piece that has come is in the set already: with it there are as many.
        let marked = Marked::with(&heard, &placed);
        if heard[piece.index] {
            return Joined {
                progress: self,
                answer: Arrival::Repeat(marked.told),
            };
        }
        placed.store(report);
        held.advance(&placed, marked)
    }
}
