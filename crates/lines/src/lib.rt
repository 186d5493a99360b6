// SPDX-License-Identifier: MPL-2.0
// What the programs write of messages that come back to back: where a message of a stream ends, numbers in decimal, lines.
#![tactic(auto)]

mod digit_count;
pub mod listing;
pub mod stream;
pub mod text;
