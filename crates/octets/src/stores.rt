// SPDX-License-Identifier: MPL-2.0
// Big-endian numbers, and runs of bytes, put at a place of a slice. A byte past the end is dropped: whether there is room is judged by lengths. As in
// numbers, each width has a line of its own.
ghost use Rattle.std.specs.Prelude.{◌≡◌, ◌∷◌, []};
ghost use Rattle.std.proofs.lemmas.List.Edits.{sets};
ghost use Rattle.laws.specs.Bytes.{bytes16, bytes32, bytes64};

// Puts a byte. After `get_mut` nothing would be known of the slice but its length.
pub fn store8(out: &mut [u8], at: usize, x: u8)
    ensures { out.new ≡ sets out.old at (x ∷ []) }
{
    if at < out.len() {
        out[at] = x;
    }
}

// Puts a run of bytes: as many as there is room for. Where there is room for all, the copy has their own length, which is known where a number is
// put: a number is then stored at once, and not by a call.
pub fn store_bytes(out: &mut [u8], at: usize, bytes: &[u8])
    ensures { out.new ≡ sets out.old at bytes.now }
{
    if out.len() < at {
        return;
    }
    let room = out.len() - at;
    if room < bytes.len() {
        out[at..].copy_from_slice(&bytes[0..room]);
        return;
    }
    out[at..at + bytes.len()].copy_from_slice(bytes);
}

// Puts a number in two bytes.
pub fn store16(out: &mut [u8], at: u32, x: u16)
    ensures { out.new ≡ sets out.old at (bytes16 x) }
{
    store_bytes(out, at as usize, &x.to_be_bytes());
}

// Puts a number in four bytes.
pub fn store32(out: &mut [u8], at: u16, x: u32)
    ensures { out.new ≡ sets out.old at (bytes32 x) }
{
    store_bytes(out, usize::from(at), &x.to_be_bytes());
}

// Puts a number in eight bytes.
pub fn store64(out: &mut [u8], at: u8, x: u64)
    ensures { out.new ≡ sets out.old at (bytes64 x) }
{
    store_bytes(out, usize::from(at), &x.to_be_bytes());
}
