// SPDX-License-Identifier: MPL-2.0
// AES-128 (FIPS 197) both ways, and cipher block chaining (SP 800-38A, 6.2) both ways. Each file stands on those before it: columns,
// rounds, roundkeys, key, block, cbc.
//
// NOT constant-time: tables are read at places that depend on key and data, which whoever shares the processor's cache can observe.
#![tactic(auto)]

pub mod block;
pub mod cbc;
mod columns;
pub mod key;
mod roundkeys;
mod rounds;
