// SPDX-License-Identifier: MPL-2.0
// The byte field of AES (FIPS 197, section 4), the substitution of bytes, the tables by which both are computed, and InvMixColumns of a word
// without one.
#![tactic(auto)]

pub mod matrix;
pub mod tables;
