// SPDX-License-Identifier: MPL-2.0
// A piece that has its place in a report: what its place asks of its bytes, and what it leaves.
ghost use Rattle.std.specs.Prelude.{◌<◌, ◌≤◌};
ghost use Rattle.joining.specs.Heard.{most};

use super::Piece;

// A piece with its bytes, on a connection of this fragment size: the size is none that 24 refuses, and the piece's index and count none that 7
// refuses.
#[derive(Clone, Copy)]
pub(crate) struct Placed<'a> {
    pub size: usize,
    pub piece: Piece,
    pub payload: &'a [u8],
    ghost small: { size ≤ 16384 },
    ghost under: { piece.index < piece.count },
    ghost few: { piece.count ≤ most },
}

impl Placed<'_> {
    ghost use Rattle.std.specs.Prelude.{◌≡◌, ◌*◌, ◌+◌, cond, length};
    ghost use Rattle.joining.specs.Join.{is_last, misfit};
    ghost use Rattle.joining.specs.Report.{put};

    // The piece is the last of its message.
    fn is_last(&self) -> bool
        ensures { result ≡ is_last self.now.piece }
    {
        self.piece.index + 1 == self.piece.count
    }

    // 20 applies: the piece's size is not that of its place.
    pub(crate) fn is_misfit(&self) -> bool
        ensures { result ≡ misfit self.now.size self.now.piece (length self.now.payload.now) }
    {
        let given = self.payload.len();
        if self.is_last() {
            return (self.size < given) | ((given == 0) & (1 < self.piece.count));
        }
        given != self.size
    }

    // The length that a piece of this index was taken with.
    pub(crate) fn due(&self, last: u16) -> usize
        ensures { result ≡ cond (is_last self.now.piece) last self.now.size }
    {
        if self.is_last() {
            last as usize
        } else {
            self.size
        }
    }

    // The place in the report where the piece begins.
    #[tactic(auto, unfolding(wire::specs::Fields::most_pieces))]
    pub(crate) fn start(&self) -> usize
        ensures value { result ≡ self.now.size * self.now.piece.index }
        ensures small { result ≤ 16384 * most }
    {
        self.size * self.piece.index
    }

    // The piece is written from its place on: that part of the report buffer is lent to a copy.
    pub(crate) fn store(&self, report: &mut [u8])
        requires { self.now.size * self.now.piece.index + length self.now.payload.now ≤ length report.old }
        ensures { report.new ≡ put report.old (self.now.size * self.now.piece.index) self.now.payload.now }
    {
        let start = self.start();
        report[start..start + self.payload.len()].copy_from_slice(self.payload);
    }

    // The last piece's length once this piece has come.
    pub(crate) fn last_after(&self, last: u16) -> u16
        requires { length self.now.payload.now ≤ self.now.size }
        ensures { result ≡ cond (is_last self.now.piece) (length self.now.payload.now) last }
    {
        if self.is_last() {
            self.payload.len() as u16
        } else {
            last
        }
    }
}
