// SPDX-License-Identifier: MPL-2.0
// The sealed part of a message, as document 01's 'Sealing' states it.
#![tactic(auto)]

mod blocks;
mod key;
pub mod opening;
pub mod padding;
pub mod sealing;

// How many key bytes there are.
pub const KEYS: usize = 64;
