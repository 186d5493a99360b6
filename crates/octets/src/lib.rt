// SPDX-License-Identifier: MPL-2.0
// What the crates from wire on do with bytes that they are lent: numbers read and stored at a place, runs of bytes stored and compared,
// bounds tested. Nothing here knows a message, and no call asks anything of its caller.
#![tactic(auto)]

pub mod bounds;
pub mod compare;
pub mod numbers;
pub mod stores;
