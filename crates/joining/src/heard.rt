// SPDX-License-Identifier: MPL-2.0
// The heard set: an array of bools, one for each index.
ghost use Rattle.std.specs.Prelude.{◌≡◌};
ghost use Rattle.joining.specs.Heard.{come, mark};

use super::placed::Placed;

// The largest number of pieces that a report has.
pub const PIECES: usize = wire::header::MOST_PIECES as usize;

// A byte whose highest bit is the only one: under it or not is one instruction for sixteen places.
const TURN: u8 = 128;

// A heard set, and how many of the indexes under a count are in it.
#[derive(Clone, Copy)]
pub(crate) struct Marked {
    pub heard: [bool; PIECES],
    pub told: usize,
}

impl Marked {
    // The set with this piece heard, counted up to its count. All places are written and counted by bytes, sixteen at once: a store to the one
    // place would hold up whoever reads the set next, and a sum of words would go place by place. `turn` is TURN at the count, `here` at the
    // index.
    #[tactic(auto, unfolding(wire::specs::Fields::most_pieces))]
    pub(crate) fn with(heard: &[bool; PIECES], placed: &Placed) -> Marked
        ensures set { result.heard ≡ mark heard.now placed.now.piece.index }
        ensures told { result.told ≡ come placed.now.piece.count (mark heard.now placed.now.piece.index) }
    {
        let mut next = *heard;
        let first = TURN - placed.piece.count as u8;
        let here = first + placed.piece.index as u8;
        let mut told: u8 = 0;
        for (i, is_heard) in next.iter_mut().enumerate() {
            let turn = first + i as u8;
            *is_heard = *is_heard | (turn == here);
            told += (*is_heard & (turn < TURN)) as u8;
        }
        Marked {
            heard: next,
            told: told as usize,
        }
    }
}
