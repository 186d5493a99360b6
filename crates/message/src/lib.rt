// SPDX-License-Identifier: MPL-2.0
// A whole message: the reader (refusals 1 to 14), the part that its payload is, and the writer.
#![tactic(auto)]

pub mod answers;
pub mod payload;
pub mod reading;
pub mod writing;
