// SPDX-License-Identifier: MPL-2.0
// Cipher block chaining (SP 800-38A, 6.2), from one slice to another and, for encryption, in place.
ghost use Rattle.std.specs.Prelude.{◌≡◌, ◌%◌, cond, eqb, length};
ghost use Rattle.aes.specs.Cipher.{cipher};
ghost use Rattle.aes.specs.Cbc.{cbc_decrypt_block, cbc_encrypt, cbc_decrypt, blocks_fit, written};

use super::block::{decrypt, encrypt, encrypt_block, front};
use super::columns::{add, bytes_of, reversed_bytes, reversed_words, words};
use super::roundkeys::{inverse_words, key_words};

// In both loops a block is stored by its place: of a slice that was lent to `chunks_exact_mut` a proof would know the length alone. The calls answer
// a bool and no Result: it is their clauses' test of two lengths, and no row of a table.

// Encrypts a buffer in place. False, with the buffer left alone, where it is not whole blocks. The hint keeps a caller's variables out of the loop's
// registers: with it 16 KiB take 579,125 instructions, by valgrind, without it 611,896.
#[inline(never)]
pub fn cbc_encrypt_in_place(keys: [[u8; 16]; 11], vector: [u8; 16], buffer: &mut [u8]) -> bool
    ensures value { result ≡ eqb (length buffer.old % 16) 0 }
    ensures new_buffer { buffer.new ≡ cond (eqb (length buffer.old % 16) 0)
        (cbc_encrypt keys vector buffer.old) buffer.old }
{
    if buffer.len() % 16 != 0 {
        return false;
    }
    let w = key_words(keys);
    let mut v = reversed_words(vector);
    for n in 0..buffer.len() / 16 {
        let at = 16 * n;
        let b = reversed_words(front(&buffer[at..]));
        v = encrypt(&w, add(b, v));
        buffer[at..at + 16].copy_from_slice(&reversed_bytes(v));
    }
    true
}

// Encrypts the source into the front of the target. False, with the target left alone, where the source is not whole blocks or the target
// is shorter.
pub fn cbc_encrypt(keys: [[u8; 16]; 11], vector: [u8; 16], source: &[u8], target: &mut [u8]) -> bool
    ensures value { result ≡ blocks_fit source.now target.old }
    ensures new_target { target.new ≡ written source.now (cbc_encrypt keys vector source.now)
        target.old }
{
    if source.len() % 16 != 0 || target.len() < source.len() {
        return false;
    }
    let n = source.len();
    target[0..n].copy_from_slice(source);
    cbc_encrypt_in_place(keys, vector, &mut target[0..n])
}

// Cipher(), as `encrypt_block`: a chain of one block after zeros is that block encrypted.
pub fn cbc_encrypt_one(keys: [[u8; 16]; 11], block: [u8; 16]) -> [u8; 16]
    ensures { result ≡ cipher keys block }
{
    encrypt_block(keys, block)
}

// Decrypts the source into the front of the target. False, with the target left alone, where the source is not whole blocks or the target
// is shorter.
pub fn cbc_decrypt(keys: [[u8; 16]; 11], vector: [u8; 16], source: &[u8], target: &mut [u8]) -> bool
    ensures value { result ≡ blocks_fit source.now target.old }
    ensures new_target { target.new ≡ written source.now (cbc_decrypt keys vector source.now)
        target.old }
{
    if source.len() % 16 != 0 || target.len() < source.len() {
        return false;
    }
    let w = inverse_words(&keys);
    let mut v = words(vector);
    for (n, block) in source.as_chunks::<16>().0.iter().enumerate() {
        let x = words(*block);
        let y = decrypt(&w, x);
        let at = 16 * n;
        target[at..at + 16].copy_from_slice(&bytes_of(add(y, v)));
        v = x;
    }
    true
}

// Two blocks of plain text.
#[derive(Clone, Copy)]
pub struct Ends {
    pub first: [u8; 16],
    pub last: [u8; 16],
}

// The first and the last block of CBC decryption: `before` is the cipher block that stands before the last.
pub fn cbc_decrypt_ends(
    keys: [[u8; 16]; 11],
    vector: [u8; 16],
    first: [u8; 16],
    before: [u8; 16],
    last: [u8; 16],
) -> Ends
    ensures { (result.first ≡ cbc_decrypt_block keys vector first) × (result.last ≡ cbc_decrypt_block keys before last) }
{
    let w = inverse_words(&keys);
    let a = decrypt(&w, words(first));
    let b = decrypt(&w, words(last));
    Ends {
        first: bytes_of(add(a, words(vector))),
        last: bytes_of(add(b, words(before))),
    }
}
