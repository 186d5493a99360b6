// SPDX-License-Identifier: MPL-2.0
// The vectors of SHA-256 and HMAC-SHA-256.
use crate::hexes::Text;
use sha256::{digest, hmac, same_tag};

// SHA-256 of a million times the letter a, as NIST publishes it.
const MILLION: [u8; 32] = [
    0xcd, 0xc7, 0x6e, 0x5c, 0x99, 0x14, 0xfb, 0x92, 0x81, 0xa1, 0xc7, 0xe2, 0x84, 0xd7, 0x3e, 0x67,
    0xf1, 0x80, 0x9a, 0x48, 0xa4, 0x97, 0x20, 0x0e, 0x04, 0x6d, 0x39, 0xcc, 0xc7, 0x11, 0x2c, 0xd0,
];

// A message and its digest.
pub(crate) fn digest_line(line: &mut Text) -> bool {
    let mut message = [0; 16384];
    let mut published = [0; 64];
    let message = line.field(&mut message);
    let published = line.field(&mut published);
    same_tag(digest(message), published)
}

// A key, a message, their tag, and the word `valid` or another: the tag is found right or wrong as published.
pub(crate) fn tag_line(line: &mut Text) -> bool {
    let mut key = [0; 1024];
    let mut message = [0; 16384];
    let mut published = [0; 64];
    let key = line.field(&mut key);
    let message = line.field(&mut message);
    let published = line.field(&mut published);
    same_tag(hmac(key, message), published) == line.rest.starts_with(b"v")
}

// Whether the digest of a million times the letter a agrees.
pub(crate) fn million() -> bool {
    same_tag(digest(&[b'a'; 1000000]), &MILLION)
}
