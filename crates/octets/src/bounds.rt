// SPDX-License-Identifier: MPL-2.0
// Bounds.
ghost use Rattle.std.specs.Prelude.{◌≡◌, ◌+◌, min, ltb};

// Whether `need` bytes from a place on reach past a length. The sum is not formed, since it might not fit.
pub fn lacks(length: usize, at: usize, need: usize) -> bool
    ensures { result ≡ ltb length (at + need) }
{
    length < at || length - at < need
}
