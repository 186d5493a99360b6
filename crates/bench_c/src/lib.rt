// SPDX-License-Identifier: MPL-2.0
// What the hub's library does not export by itself and ./bench times: chaining, and joining alone, on numbers and slices.
#![tactic(auto)]

pub mod chaining;
pub mod joins;
