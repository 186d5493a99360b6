// SPDX-License-Identifier: MPL-2.0
// The common header written, down document 01's table "The message on the wire".
ghost use Rattle.std.specs.Prelude.{◌≡◌, false};
ghost use Rattle.std.proofs.lemmas.List.Edits.{sets};
ghost use Rattle.writer.specs.Header.{header_bytes};
ghost use Rattle.writer.specs.Written.{written, output};

use crate::put_refusal;
use octets::stores::{store8, store16, store32, store64};
use wire::header::Header;
use wire::refusals::Refused;

// Puts the fields, each at its place.
#[tactic(auto, unfolding(crate::specs::Header::header_bytes))]
fn put_header(h: Header, size: u16, out: &mut [u8])
    ensures { out.new ≡ sets out.old 0 (header_bytes h size) }
{
    store16(out, Header::SIGNATURE_AT, Header::SIGNATURE);
    store16(out, Header::LENGTH_AT, size);
    store8(out, Header::VERSION_AT, Header::VERSION);
    store8(out, Header::TYPE_AT, h.kind);
    store16(out, Header::FLAGS_AT, h.flags);
    store32(out, Header::SEQUENCE_AT, h.sequence);
    store64(out, Header::REQUEST_AT, h.request);
    store16(out, Header::INDEX_AT, h.index);
    store16(out, Header::COUNT_AT, h.count);
    store64(out, Header::SESSION_AT, h.session);
    store64(out, Header::CHANNEL_AT, h.channel);
}

// Writes the 40 bytes of a header whose message has `size` bytes.
#[tactic(auto, unfolding(crate::specs::Written::written), using(crate::proofs::Writing::stored, crate::proofs::Writing::length_header))]
pub fn write_header(header: Header, size: u16, out: &mut [u8]) -> Result<usize, Refused>
    ensures answer { result ≡ written false 40 out.old }
    ensures bytes { out.new ≡ output false 40 (header_bytes header size) out.old }
{
    put_refusal(false, Header::LENGTH, out.len())?;
    put_header(header, size, out);
    Ok(Header::LENGTH)
}
