// SPDX-License-Identifier: MPL-2.0
// The listing's line of one message.
ghost use Rattle.std.specs.Prelude.{◌≡◌, ◌∷◌, [], cond, length};
ghost use Rattle.std.proofs.lemmas.List.Edits.{sets};
ghost use Rattle.laws.specs.Rows.{refusal_in};
ghost use Rattle.wire.specs.Reader.{read_header};
ghost use Rattle.hub_c.specs.Sizes.{wrong_buffer};
ghost use Rattle.hub_c.specs.Line.{line_text, wrong_line};

use super::words::{WRONG_BUFFER, put_length, refusal_in};
use lines::listing::LINE;
use octets::numbers::number16;

// Writes the line of a message that is given whole, `type sequence index count length` or `refused N`, and a newline, into a buffer of 64 bytes,
// and its length into the one word of `size`. The answer is the refusal's number, 0 where the message is listed.
#[unsafe(no_mangle)]
pub extern "C" fn hub_list(message: &[u8], line: &mut [u8], size: &mut [u64]) -> u32
    ensures value { result ≡ cond (wrong_line line.old size.old) wrong_buffer
        (refusal_in (read_header message.now)) }
    ensures new_line { line.new ≡ cond (wrong_line line.old size.old) line.old
        (sets line.old 0 (line_text message.now)) }
    ensures new_size { size.new ≡ cond (wrong_line line.old size.old) size.old
        (length (line_text message.now) ∷ []) }
{
    if (line.len() != LINE) | (size.len() != 1) {
        return WRONG_BUFFER;
    }
    let answer = wire::header::read_header(message);
    let end = lines::listing::put_line(answer, number16(message, 2), line, 0);
    put_length(size, end as u64);
    refusal_in(&answer)
}
