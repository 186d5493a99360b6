// SPDX-License-Identifier: MPL-2.0
// Writing a message whose fields are given in words: type, flags, sequence, request, index, count, session, channel.
ghost use Rattle.std.specs.Prelude.{◌≡◌, ◌∷◌, [], false, cond, length};
ghost use Rattle.writer.specs.Answers.{wrote};
ghost use Rattle.message.specs.Writing.{write_answer, written_into};
ghost use Rattle.hub_c.specs.Sizes.{wrong_buffer};
ghost use Rattle.hub_c.specs.Written.{fields_of, too_wide, wrong_fields};

use super::words::{MOST_BYTE, MOST_SHORT, WRONG_BUFFER, hand_length, word};
use wire::header::Header;

// The words of a header that is to be written.
const FIELDS: usize = 8;

// The greatest sequence number.
const MOST_SEQUENCE: u64 = 4294967295;

// A word has no room in its field.
#[tactic(auto, unfolding(crate::specs::Written::too_wide))]
fn too_wide(fields: &[u64]) -> bool
    ensures { result ≡ too_wide fields.now }
{
    (MOST_BYTE < word(fields, 0))
        | (MOST_SHORT < word(fields, 1))
        | (MOST_SEQUENCE < word(fields, 2))
        | (MOST_SHORT < word(fields, 4))
        | (MOST_SHORT < word(fields, 5))
}

// The header of these words.
fn header_of(fields: &[u64]) -> Header
    requires { too_wide fields.now ≡ false }
    ensures { result ≡ fields_of fields.now }
{
    Header {
        kind: word(fields, 0) as u8,
        flags: word(fields, 1) as u16,
        sequence: word(fields, 2) as u32,
        request: word(fields, 3),
        index: word(fields, 4) as u16,
        count: word(fields, 5) as u16,
        session: word(fields, 6),
        channel: word(fields, 7),
    }
}

// Writes a message with these fields, this chain (given with its end entry) and this payload at the start of the output, and its length into
// the one word of `size`; or refuses with 5, 6, 7, 8, 10, 14, 20 or 22, leaves the output as it was, and the length is 0. A word that has no
// room in its field is 255.
#[unsafe(no_mangle)]
pub extern "C" fn hub_write(
    fields: &[u64],
    chain: &[u8],
    payload: &[u8],
    keys: &[u8],
    out: &mut [u8],
    size: &mut [u64],
) -> u32
    ensures value { result ≡ cond (wrong_fields fields.now size.old) wrong_buffer
        (wrote (write_answer (fields_of fields.now) chain.now payload.now (length keys.now)
        (length out.old))).refusal }
    ensures new_out { out.new ≡ cond (wrong_fields fields.now size.old) out.old
        (written_into (fields_of fields.now) chain.now payload.now keys.now
        out.old) }
    ensures new_size { size.new ≡ cond (wrong_fields fields.now size.old) size.old
        ((wrote (write_answer (fields_of fields.now) chain.now payload.now (length keys.now)
        (length out.old))).size ∷ []) }
{
    if (fields.len() != FIELDS) | (size.len() != 1) | too_wide(fields) {
        return WRONG_BUFFER;
    }
    let header = header_of(fields);
    hand_length(
        message::writing::write(header, chain, payload, keys, out),
        size,
    )
}
