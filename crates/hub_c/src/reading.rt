// SPDX-License-Identifier: MPL-2.0
// Reading: what was read of a message, in words.
//
//     0      1       2          3         4       5       6         7         8        9      10
//     | type | flags | sequence | request | index | count | session | channel | sealed | from | size
//
ghost use Rattle.std.specs.Prelude.{◌≡◌, ◌∷◌, [], cond, length, get_or};
ghost use Rattle.std.proofs.lemmas.List.Edits.{sets};
ghost use Rattle.wire.specs.Answers.{found_header};
ghost use Rattle.wire.specs.Reader.{read_header};
ghost use Rattle.message.specs.Answers.{found_message};
ghost use Rattle.message.specs.Reading.{read_message, working_after};
ghost use Rattle.hub_c.specs.Sizes.{wrong_buffer, header_size, sized, kept};
ghost use Rattle.hub_c.specs.Headers.{field_words, found_words, wrong_place, place_in};

use super::words::{PLACE, WRONG_BUFFER, put_three, put_triple, put_word, word};
use message::answers::found;
use octets::bounds::lacks;
use wire::answers::Found;
use wire::header::Header;

// The words of a header.
const HEADER: usize = 11;

// Puts the fields of a header.
fn put_fields(h: Header, out: &mut [u64])
    ensures { out.new ≡ sets out.old 0 (field_words h) }
{
    put_three(out, 0, h.kind as u64, h.flags as u64, h.sequence as u64);
    put_three(out, 3, h.request, h.index as u64, h.count as u64);
    put_word(out, 6, h.session);
    put_word(out, 7, h.channel);
}

// Hands out what was read: its words, and the refusal's number. Beside a refusal all words are 0.
fn hand(found: Found, out: &mut [u64]) -> u32
    requires { length out.old ≡ header_size }
    ensures value { result ≡ found.refusal }
    ensures new_out { out.new ≡ found_words found }
{
    let header = found.header;
    put_fields(header, out);
    put_three(
        out,
        8,
        found.sealed as u64,
        found.from as u64,
        found.size as u64,
    );
    found.refusal as u32
}

// Reads a message as far as it goes without keys: refusals 1 to 9, and the header's words, all 0 beside a refusal. The place is that of the payload
// in the message (sealed is 0), for a sealed message that of its sealed part (sealed is 2, so hub_payload hands out nothing by these words).
#[unsafe(no_mangle)]
pub extern "C" fn hub_read_header(message: &[u8], header: &mut [u64]) -> u32
    ensures value { result ≡ sized header_size header.old (found_header (read_header message.now)).refusal }
    ensures new_header { header.new ≡ kept header_size header.old
        (found_words (found_header (read_header message.now))) header.old }
{
    if header.len() != HEADER {
        return WRONG_BUFFER;
    }
    hand(wire::header::read_header(message).into(), header)
}

// Reads a message: refusals 1 to 14, and the header's words, all 0 beside a refusal. The place is that of the payload, in the message if it was
// plain (sealed is 0), in the working buffer if it was sealed (sealed is 1).
#[unsafe(no_mangle)]
pub extern "C" fn hub_read(
    message: &[u8],
    keys: &[u8],
    working: &mut [u8],
    header: &mut [u64],
) -> u32
    ensures value { result ≡ sized header_size header.old (found_message
        (read_message message.now keys.now (length working.old))).refusal }
    ensures new_working { working.new ≡ kept header_size header.old
        (working_after message.now keys.now working.old) working.old }
    ensures new_header { header.new ≡ kept header_size header.old
        (found_words (found_message (read_message message.now keys.now (length working.old))))
        header.old }
{
    if header.len() != HEADER {
        return WRONG_BUFFER;
    }
    hand(
        found(message::reading::read(message, keys, working)),
        header,
    )
}

// A part of one of the two buffers: 0 is the message, 1 the working buffer, in the words that C is handed.
#[derive(Clone, Copy)]
struct Place {
    buffer: u64,
    from: usize,
    size: usize,
}

// The place of a payload by the numbers of a header, in a message and a working buffer of these lengths.
#[tactic(auto, unfolding(crate::specs::Headers::place_in))]
fn place_in(message: usize, working: usize, which: u64, from: usize, size: usize) -> Place
    ensures { result.buffer ∷ result.from ∷ result.size ∷ [] ≡ place_in message working which from size }
{
    if (which == 0) & !lacks(message, from, size) {
        return Place {
            buffer: 0,
            from,
            size,
        };
    }
    if (which == 1) & !lacks(working, from, size) {
        return Place {
            buffer: 1,
            from,
            size,
        };
    }
    Place {
        buffer: 0,
        from: 0,
        size: 0,
    }
}

// Where the payload lies of a message that was read: which buffer (0 the message, 1 the working buffer), from where, how many bytes. No number
// is trusted: what does not fit is 0, 0, 0, the empty part at the message's start.
#[unsafe(no_mangle)]
pub extern "C" fn hub_payload(
    message: &[u8],
    working: &[u8],
    header: &[u64],
    place: &mut [u64],
) -> u32
    ensures value { result ≡ cond (wrong_place header.now place.old) wrong_buffer 0 }
    ensures new_place { place.new ≡ cond (wrong_place header.now place.old) place.old
        (place_in (length message.now) (length working.now) (get_or header.now 8 0)
        (get_or header.now 9 0) (get_or header.now 10 0)) }
{
    if (header.len() != HEADER) | (place.len() != PLACE) {
        return WRONG_BUFFER;
    }
    let found = place_in(
        message.len(),
        working.len(),
        word(header, 8),
        word(header, 9) as usize,
        word(header, 10) as usize,
    );
    put_triple(place, found.buffer, found.from as u64, found.size as u64);
    0
}
