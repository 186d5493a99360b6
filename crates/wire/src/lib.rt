// SPDX-License-Identifier: MPL-2.0
// What may stand on the wire: the common header, its chain of additional headers, and the numbers of the
// refusals. Nothing here knows keys or remembers anything.
#![tactic(auto)]

pub mod answers;
pub mod chain;
pub mod header;
pub mod refusals;
