// SPDX-License-Identifier: MPL-2.0
// The vectors of AES-128 and its CBC mode, each run both ways.
use crate::hexes::Text;
use aes::block::{decrypt_block, encrypt_block};
use aes::cbc::{cbc_decrypt, cbc_encrypt, cbc_encrypt_in_place};
use aes::key::expand_key;

// A key and its expansion.
pub(crate) fn key_line(line: &mut Text) -> bool {
    let keys = expand_key(line.array());
    let mut published = [0; 176];
    keys.as_flattened() == &*line.field(&mut published)
}

// A key, a block and its cipher: the block encrypts to its cipher, and the cipher decrypts to it.
pub(crate) fn block_line(line: &mut Text) -> bool {
    let keys = expand_key(line.array());
    let plain = line.array();
    let cipher = line.array();
    encrypt_block(keys, plain) == cipher && decrypt_block(keys, cipher) == plain
}

// Whether the plain text encrypts to the cipher text, and the cipher text decrypts to the plain text.
fn agree(keys: [[u8; 16]; 11], vector: [u8; 16], plain: &[u8], cipher: &[u8]) -> bool {
    let mut out = [0; 1024];
    let encrypted = cbc_encrypt(keys, vector, plain, &mut out);
    let there = out.get(..plain.len()) == Some(cipher);
    let decrypted = cbc_decrypt(keys, vector, cipher, &mut out);
    let back = out.get(..cipher.len()) == Some(plain);
    encrypted && there && decrypted && back
}

// Whether a buffer encrypts in place to the cipher text.
fn encrypts_in_place(
    keys: [[u8; 16]; 11],
    vector: [u8; 16],
    buffer: &mut [u8],
    cipher: &[u8],
) -> bool {
    cbc_encrypt_in_place(keys, vector, buffer) && &*buffer == cipher
}

// A key, a vector, a plain text and its cipher text: they agree, and the buffer of the plain text encrypts in place.
pub(crate) fn chain_line(line: &mut Text) -> bool {
    let keys = expand_key(line.array());
    let vector = line.array();
    let mut plain = [0; 1024];
    let mut cipher = [0; 1024];
    let plain = line.field(&mut plain);
    let cipher = line.field(&mut cipher);
    agree(keys, vector, plain, cipher) && encrypts_in_place(keys, vector, plain, cipher)
}
