// SPDX-License-Identifier: MPL-2.0
// The cutter: which bytes of a report stand in piece i.
ghost use Rattle.std.specs.Prelude.{◌≡◌, ◌<◌, ◌+◌, length};
ghost use Rattle.joining.specs.Cut.{bad_size, piece_count, cutting, cut_piece};

use super::heard::PIECES;
use wire::refusals::{Refusal, Refused};

// The largest fragment size.
pub const LARGEST: usize = 16384;

// 24 applies: the fragment size is outside 1 to 16,384.
pub fn bad_size(size: usize) -> bool
    ensures { result ≡ bad_size size }
{
    (size == 0) | (LARGEST < size)
}

// How many pieces a report of n bytes makes.
fn piece_count(size: usize, bytes: usize) -> usize
    requires { 0 < size }
    ensures { result ≡ piece_count size bytes }
{
    if bytes == 0 {
        return 1;
    }
    (bytes - 1) / size + 1
}

// Asked for piece i of a report: into how many pieces it is cut, if it can be cut.
#[tactic(auto, unfolding(crate::specs::Cut::cut_refusal, wire::specs::Fields::most_pieces))]
pub fn cut(report: &[u8], size: usize, i: usize) -> Result<usize, Refused>
    ensures { result ≡ cutting size (length report.now) i }
{
    Refusal::WrongFragmentSize.when(bad_size(size))?;
    let pieces = piece_count(size, report.len());
    Refusal::WrongPiece.when((size * PIECES < report.len()) | (pieces <= i))?;
    Ok(pieces)
}

// Piece i of a report; the empty part at the report's start where the cutter refuses (`CutterExact`).
#[tactic(auto, using(crate::proofs::Cuts::within))]
pub fn cut_piece(report: &[u8], size: usize, i: usize) -> &[u8]
    ensures { result.now ≡ cut_piece size report.now i }
{
    match cut(report, size, i) {
        Err(_) => &report[..0],
        Ok(_) => {
            let start = size * i;
            &report[start..start + size.min(report.len() - start)]
        }
    }
}
