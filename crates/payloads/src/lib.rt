// SPDX-License-Identifier: MPL-2.0
// The payloads of Discovery and Connect: which shapes there are, and what stands in them. A Connect payload begins
//
//     0      2      3
//     | mode | type | …
//
// and a Connection Request, like a Connection Response that is Pending, goes on (document 01, "Connect payloads")
//
//     3                 4          6       14              18         20  52         54  86
//     | curve or Result | HMACSize | Nonce | fragment size | X length | X | Y length | Y |
//
// A Presence Response, a Discovery payload, with a name of n bytes is
//
//     0               1      3             5   7      7 + n  11 + n 15 + n
//     | DiscoveryType | mode | device type | n | name | salt | hash |
#![tactic(auto)]

pub mod connect;
pub mod discovery;
pub mod reading;
pub mod shapes;
pub mod types;

// Stands for the type, Result or Status of a payload that is too short to have one, which the promises read as a number (`connect_type` and
// `code_of` in `FieldsBack`, `IsConnect` and `IsCoded`).
pub const NONE: u8 = 255;

// Pending, the Result of a Connection Response that carries the host's half of the exchange. Result and Status are bytes, as the payload has them
// and C gives them.
pub const PENDING: u8 = 1;

// The places of nonce, X and Y in a payload that carries them.
pub const NONCE_AT: usize = 6;

pub const X_AT: usize = 20;

pub const Y_AT: usize = 54;

// The bytes of a payload that carries nonce, X and Y.
pub const EXCHANGE_SIZE: usize = 86;
// The number of HMACSize, and of bytes of X and of Y.
pub const KEY_SIZE: u16 = 32;
// The fragment size that a Connection Request names.
pub const FRAGMENT_SIZE: u32 = 16384;
// The longest certificate.
pub const MOST_CERTIFICATE: u16 = 2048;
// The longest thumbprint.
pub const MOST_THUMBPRINT: u16 = 512;
// The longest name.
pub const MOST_NAME: u16 = 64;
// The place of the name in a Presence Response.
pub const NAME_AT: usize = 7;
// The bytes of a salt.
pub const SALT_SIZE: usize = 4;
// The bytes of a hash.
pub const HASH_SIZE: usize = 4;
// The bytes of a Presence Response with an empty name.
pub const PRESENCE_SIZE: usize = 15;
