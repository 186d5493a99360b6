// SPDX-License-Identifier: MPL-2.0
// No code: definitions and laws that two or more crates cite.

#![tactic(auto)]
