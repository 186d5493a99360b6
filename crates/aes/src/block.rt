// SPDX-License-Identifier: MPL-2.0
// One block, both ways (FIPS 197, 5.1 and 5.3), by round keys that go by value.
ghost use Rattle.std.specs.Prelude.{◌≡◌, ◌≤◌, ℕ, List, length, map};
ghost use Rattle.aes.specs.State.{Keys, load_block};
ghost use Rattle.aes.specs.Words.{bytes_of, reversed_bytes};
ghost use Rattle.aes.specs.Cipher.{cipher, inv_cipher, keys_back, eq_keys};

use super::columns::{State, add, bytes_of, reversed_bytes, reversed_words, words};
use super::roundkeys::{inverse_words, key_words};
use super::rounds::{Back, Forth, crypt};

// The sixteen bytes at the front of a slice that has them.
#[tactic(auto, using(crate::proofs::ChainLoop::loaded_front))]
pub(crate) fn front(s: &[u8]) -> [u8; 16]
    requires { 16 ≤ length s.now }
    ensures { result ≡ load_block s.now }
{
    let mut block = [0u8; 16];
    block.copy_from_slice(&s[..16]);
    block
}

// Sixteen bytes from the front of a slice; those that are missing count as zero.
#[tactic(auto, using(crate::proofs::ChainLoop::loaded_short))]
pub fn load_block(s: &[u8]) -> [u8; 16]
    ensures { result ≡ load_block s.now }
{
    let mut block = [0u8; 16];
    let n = s.len().min(16);
    block[..n].copy_from_slice(&s[..n]);
    block
}

// Cipher() on four words, the last column first, by the words of the round keys ks. The hint is that of `crypt`, here and below.
#[tactic(auto, using(crate::proofs::Lookups::encrypted))]
#[inline(always)]
pub(crate) fn encrypt(keys: &[State; 11], b: State) -> State
    ensures { (ks : List (List ℕ)) → map reversed_bytes keys.now ≡ keys_back ks
        → reversed_bytes result ≡ cipher ks (reversed_bytes b) }
{
    crypt::<Forth>(keys, add(b, keys[10]))
}

// InvCipher() on four words, as EqInvCipher() (5.3.5), by the words of its own round keys.
#[tactic(auto, using(crate::proofs::Lookups::decrypted))]
#[inline(always)]
pub(crate) fn decrypt(keys: &[State; 11], b: State) -> State
    ensures { (ks : List (List ℕ)) → Keys ks → map bytes_of keys.now ≡ eq_keys ks
        → bytes_of result ≡ inv_cipher ks (bytes_of b) }
{
    crypt::<Back>(keys, add(b, keys[10]))
}

// Cipher().
pub fn encrypt_block(keys: [[u8; 16]; 11], block: [u8; 16]) -> [u8; 16]
    ensures { result ≡ cipher keys block }
{
    reversed_bytes(encrypt(&key_words(keys), reversed_words(block)))
}

// InvCipher().
pub fn decrypt_block(keys: [[u8; 16]; 11], block: [u8; 16]) -> [u8; 16]
    ensures { result ≡ inv_cipher keys block }
{
    bytes_of(decrypt(&inverse_words(&keys), words(block)))
}
