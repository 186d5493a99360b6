// SPDX-License-Identifier: MPL-2.0
// The hub for software in other languages: every call on numbers and lent slices alone. A call answers 0 where it is done, the number of
// document 01's refusal where it refuses, and 255, a number that document 01 does not use, where a buffer of fixed size has another size,
// a word no room in its field, or the report buffer none for the report. That is judged first, and then nothing is changed. In C a slice is
// a pointer and a length.
#![tactic(auto)]

pub mod client;
pub mod connect;
pub mod connection;
pub mod cutting;
pub mod digests;
pub mod discovery;
pub mod listing;
pub mod payload;
pub mod reading;
pub mod stream;
mod words;
pub mod writing;

ghost use Rattle.std.specs.Prelude.{◌≡◌};

// The version of these calls: major · 65536 + minor · 256 + patch.
#[unsafe(no_mangle)]
pub extern "C" fn hub_version() -> u32
    ensures { result ≡ 0x00010200 }
{
    0x00010200
}
