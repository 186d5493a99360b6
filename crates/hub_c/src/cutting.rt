// SPDX-License-Identifier: MPL-2.0
// The cutter in words: how many pieces a report makes, and where piece i lies.
ghost use Rattle.std.specs.Prelude.{◌≡◌, length};
ghost use Rattle.joining.specs.Cut.{cut_refusal};
ghost use Rattle.hub_c.specs.Sizes.{piece_size, sized, kept};
ghost use Rattle.hub_c.specs.Pieces.{cut_words};

use super::words::{PIECE, WRONG_BUFFER, put_triple};

// Asked for piece i of a report: the count of pieces, from where the piece lies in the report, and how many bytes it has. Refused with 24 or 7
// they are 0, 0, 0: no piece, and the empty part at the report's start.
#[unsafe(no_mangle)]
pub extern "C" fn hub_cut(report: &[u8], fragment_size: u64, index: u64, piece: &mut [u64]) -> u32
    ensures value { result ≡ sized piece_size piece.old (cut_refusal fragment_size (length report.now) index) }
    ensures new_piece { piece.new ≡ kept piece_size piece.old (cut_words fragment_size report.now index)
        piece.old }
{
    if piece.len() != PIECE {
        return WRONG_BUFFER;
    }
    let size = fragment_size as usize;
    let i = index as usize;
    match joining::cut::cut(report, size, i) {
        Err(refused) => {
            put_triple(piece, 0, 0, 0);
            refused.number() as u32
        }
        Ok(count) => {
            let from = fragment_size * index;
            let bytes = joining::cut::cut_piece(report, size, i).len();
            put_triple(piece, count as u64, from, bytes as u64);
            0
        }
    }
}
