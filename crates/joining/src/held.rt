// SPDX-License-Identifier: MPL-2.0
// What is remembered, as the refusals and the count of a piece read it.
ghost use Rattle.std.specs.Prelude.{◌≡◌};

use super::cut::bad_size;
use super::heard::{Marked, PIECES};
use super::placed::Placed;
use super::{Arrival, Joined, Piece, Progress};
use octets::compare::alike;
use wire::refusals::{Refusal, Refused};

// The SequenceNumber that no report has: 2^32 - 1.
const UNUSED: u32 = 4294967295;

// What is remembered, with its heard set lent: read where it lies it is not copied at each call, and what else is remembered stays in registers.
// The index of a piece looked up in the set of a `&Progress` has the whole of it in memory, in 170 instructions a piece of 64 bytes in place of 153.
#[derive(Clone, Copy)]
pub(crate) struct Held<'a> {
    pub progress: Progress,
    pub heard: &'a [bool; PIECES],
    ghost same: { heard.now ≡ progress.heard },
}

impl Held<'_> {
    ghost use Rattle.std.specs.Prelude.{◌≢◌, ◌≤◌, ◌+◌, ◌*◌, length, OnOk, IfOk, IfErr};
    ghost use Rattle.laws.specs.Rows.{first, unless};
    ghost use Rattle.joining.specs.Heard.{come, mark};
    ghost use Rattle.joining.specs.Join.{unlike, conflict, sequence_rows, place_rows, join_refusal, Fitting, advance};

    // The refusals of a piece that is not one of the expected message.
    fn expects(&self, size: usize, piece: Piece) -> Result<(), Refused>
        ensures { result ≡ unless (first (sequence_rows size self.now.progress.expected piece)) tt }
    {
        Refusal::WrongFragmentSize.when(bad_size(size))?;
        Refusal::WrongPiece.when(piece.has_bad_index())?;
        Refusal::LastSequence.when(piece.sequence == UNUSED)?;
        Refusal::PastSequence.when(piece.sequence < self.progress.expected)?;
        Refusal::FutureSequence.when(self.progress.expected < piece.sequence)
    }

    // 21 applies: count or channel is unlike that of the first piece taken. The heard set is looked at only where they differ.
    fn is_unlike(&self, piece: Piece) -> bool
        ensures { result ≡ unlike self.now.progress piece }
    {
        let heard = self.heard;
        let first = (self.progress.count, self.progress.channel);
        first != (piece.count, piece.channel) && heard.contains(&true)
    }

    // 23 applies: the index is heard, and the bytes or their number are not those that were taken.
    #[tactic(auto, unfolding(wire::specs::Fields::most_pieces))]
    fn has_conflict(&self, placed: &Placed, report: &[u8]) -> bool
        requires { placed.now.size * placed.now.piece.index + length placed.now.payload.now ≤ length report.now }
        ensures { result ≡ conflict placed.now.size self.now.progress placed.now.piece placed.now.payload.now report.now }
    {
        if !self.heard[placed.piece.index] {
            return false;
        }
        if placed.payload.len() != placed.due(self.progress.last) {
            return true;
        }
        let start = placed.start();
        !alike(&report[start..start + placed.payload.len()], placed.payload)
    }

    // The refusals of a piece that does not go with what has come, or does not fit into a report buffer of `room` bytes.
    #[tactic(auto, unfolding(wire::specs::Fields::most_pieces))]
    fn fits(&self, placed: &Placed, room: usize) -> Result<(), Refused>
        ensures { result ≡ unless (first (place_rows placed.now.size self.now.progress placed.now.piece (length placed.now.payload.now) room)) tt }
    {
        let end = placed.start() + placed.payload.len();
        Refusal::UnlikeFirstPiece.when(self.is_unlike(placed.piece))?;
        Refusal::WrongPieceSize.when(placed.is_misfit())?;
        Refusal::NoRoom.when(room < end)
    }

    // The piece at its place, where no row refuses it.
    pub(crate) fn place<'a>(
        &self,
        size: usize,
        piece: Piece,
        payload: &'a [u8],
        report: &[u8],
    ) -> Result<Placed<'a>, Refused>
        ensures placed { IfOk result (λ p. (p.size ≡ size) × (p.piece ≡ piece) × (p.payload.now ≡ payload.now)) }
        ensures passed { OnOk result (join_refusal size self.now.progress piece payload.now report.now ≡ 0) }
        ensures refused { IfErr result (λ n. (n ≡ join_refusal size self.now.progress piece payload.now report.now) × (n ≢ 0)) }
    {
        self.expects(size, piece)?;
        let placed = Placed {
            size,
            piece,
            payload,
        };
        self.fits(&placed, report.len())?;
        Refusal::UnlikeRepeat.when(self.has_conflict(&placed, report))?;
        Ok(placed)
    }

    // A new piece is counted; `marked` is the set with it, and how many indexes under its count are in that: its message is complete or not.
    pub(crate) fn advance(&self, placed: &Placed, marked: Marked) -> Joined
        requires set { marked.heard ≡ mark self.now.progress.heard placed.now.piece.index }
        requires told { marked.told ≡ come placed.now.piece.count marked.heard }
        requires fitting { Fitting placed.now.size self.now.progress placed.now.piece (length placed.now.payload.now) }
        ensures { result ≡ advance placed.now.size self.now.progress placed.now.piece (length placed.now.payload.now) }
    {
        let Piece { count, channel, .. } = placed.piece;
        let expected = self.progress.expected;
        let last = placed.last_after(self.progress.last);
        let Marked { heard, told } = marked;
        if told == count {
            let length = placed.size * (count - 1) + last as usize;
            return Joined {
                progress: Progress::expecting(expected + 1),
                answer: Arrival::Complete {
                    length,
                    heard: told,
                },
            };
        }
        Joined {
            progress: Progress {
                expected,
                heard,
                count,
                channel,
                last,
            },
            answer: Arrival::Taken(told),
        }
    }
}
