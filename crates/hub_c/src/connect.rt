// SPDX-License-Identifier: MPL-2.0
// What a Connect payload says, in words.
//
//     0      1      2      3       5   7   9             11
//     | type | mode | code | nonce | X | Y | certificate | thumbprint
//
// A part is two words: from where, how many bytes.
ghost use Rattle.std.specs.Prelude.{◌≡◌, ◌∷◌, [], length};
ghost use Rattle.std.proofs.lemmas.List.Edits.{sets};
ghost use Rattle.laws.specs.Rows.{refusal_in};
ghost use Rattle.payloads.specs.Connect.{read_connect, connect_told};
ghost use Rattle.hub_c.specs.Sizes.{connect_size, sized, kept};
ghost use Rattle.hub_c.specs.Connect.{span_words, parts_words, shown_words, connect_words};

use super::words::{WRONG_BUFFER, put_three, put_two, refusal_in};
use payloads::connect::FoundConnect;
use payloads::reading::Span;

// The words of what a Connect payload says.
const CONNECT: usize = 13;

// Puts the two words of a part.
fn put_span(out: &mut [u64], at: u32, span: Span)
    ensures { out.new ≡ sets out.old at (span_words span) }
{
    put_two(out, at, span.from as u64, span.size as u64);
}

// Puts type, mode and code.
fn put_numbers(out: &mut [u64], connect: u8, mode: u16, code: u8)
    ensures { out.new ≡ sets out.old 0 (connect ∷ mode ∷ code ∷ []) }
{
    put_three(out, 0, connect as u64, mode as u64, code as u64);
}

// Puts the words of three parts, after type, mode and a third number.
pub(crate) fn put_parts(out: &mut [u64], a: Span, b: Span, c: Span)
    ensures { out.new ≡ sets out.old 3 (parts_words a b c) }
{
    put_span(out, 3, a);
    put_span(out, 5, b);
    put_span(out, 7, c);
}

// Puts the words of certificate and thumbprint.
fn put_shown(out: &mut [u64], certificate: Span, thumbprint: Span)
    ensures { out.new ≡ sets out.old 9 (shown_words certificate thumbprint) }
{
    put_span(out, 9, certificate);
    put_span(out, 11, thumbprint);
}

// Puts all words.
fn put_connect(found: FoundConnect, out: &mut [u64])
    requires { length out.old ≡ connect_size }
    ensures { out.new ≡ connect_words found }
{
    put_numbers(out, found.connect, found.mode, found.code);
    put_parts(out, found.nonce, found.x, found.y);
    put_shown(out, found.certificate, found.thumbprint);
}

// Takes a Connect payload apart: its words; or refuses with 14 what is none, and all words are 0.
#[unsafe(no_mangle)]
pub extern "C" fn hub_read_connect(payload: &[u8], connect: &mut [u64]) -> u32
    ensures value { result ≡ sized connect_size connect.old (refusal_in (read_connect payload.now)) }
    ensures new_connect { connect.new ≡ kept connect_size connect.old (connect_words (connect_told (read_connect payload.now)))
        connect.old }
{
    if connect.len() != CONNECT {
        return WRONG_BUFFER;
    }
    let answer = payloads::connect::read_connect(payload);
    put_connect(answer.unwrap_or(FoundConnect::nothing()), connect);
    refusal_in(&answer)
}
