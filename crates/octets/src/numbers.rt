// SPDX-License-Identifier: MPL-2.0
// Big-endian numbers at a place of a slice. A byte past the end counts as 0: whether it is there is judged by lengths. A place has the type that
// callers have it in. Each width has a line of its own over the bytes there: a trait over the widths would be three impls for these three lines.
ghost use Rattle.std.specs.Prelude.{◌≡◌, drop};
ghost use Rattle.laws.specs.Bytes.{be8, be16, be32, be64, bytes_at};

// The byte at a place.
pub fn byte(s: &[u8], at: usize) -> u8
    ensures { result ≡ be8 s.now at }
{
    s.get(at).copied().unwrap_or(0)
}

// What stands from a place on.
fn rest(s: &[u8], at: usize) -> &[u8]
    ensures { result.now ≡ drop at s.now }
{
    s.get(at..).unwrap_or(&[])
}

// The N bytes from a place on. Past the end they are made one by one: a copy of a length that is not known would put each number on the stack.
#[tactic(auto, using(crate::proofs::Places::whole))]
pub fn bytes_at<const N: usize>(s: &[u8], at: usize) -> [u8; N]
    ensures { result ≡ bytes_at s.now at N }
{
    let rest = rest(s, at);
    if let Some(bytes) = rest.first_chunk() {
        return *bytes;
    }
    std::array::from_fn(|i| byte(rest, i))
}

// The number in the two bytes at a place.
#[tactic(auto, unfolding(laws::specs::Bytes::bytes_at))]
pub fn number16(s: &[u8], at: u32) -> u16
    ensures { result ≡ be16 s.now at }
{
    u16::from_be_bytes(bytes_at(s, at as usize))
}

// The number in the four bytes at a place.
#[tactic(auto, unfolding(laws::specs::Bytes::bytes_at))]
pub fn number32(s: &[u8], at: u16) -> u32
    ensures { result ≡ be32 s.now at }
{
    u32::from_be_bytes(bytes_at(s, usize::from(at)))
}

// The number in the eight bytes at a place.
#[tactic(auto, unfolding(laws::specs::Bytes::bytes_at))]
pub fn number64(s: &[u8], at: u8) -> u64
    ensures { result ≡ be64 s.now at }
{
    u64::from_be_bytes(bytes_at(s, usize::from(at)))
}
