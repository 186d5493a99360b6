// SPDX-License-Identifier: MPL-2.0
// Cipher block chaining both ways, the key's expansion included.
ghost use Rattle.std.specs.Prelude.{◌≡◌};
ghost use Rattle.aes.specs.Cbc.{cbc_encrypt, cbc_decrypt, blocks_fit, written};
ghost use Rattle.aes.specs.Key.{expand_key};
ghost use Rattle.aes.specs.State.{load_block};

use aes::cbc::{cbc_decrypt, cbc_encrypt};
use aes::key::expand_key;
use octets::numbers::bytes_at;

// The sixteen bytes at the front of a slice; those that are missing count as zero. This is `load_block` of aes, but for a copy of a length that is
// not known, for which the archive would want memcpy from outside.
#[tactic(auto, using(crate::proofs::Fronts::loaded))]
fn first_block(s: &[u8]) -> [u8; 16]
    ensures { result ≡ load_block s.now }
{
    bytes_at(s, 0)
}

// Encrypts the source into the front of the target under the first sixteen bytes of the key, after the first sixteen of the vector; a byte
// that they lack counts as 0. False, with the target left alone, where the source is not whole blocks or the target is shorter.
#[unsafe(no_mangle)]
pub extern "C" fn bench_encrypt(key: &[u8], vector: &[u8], source: &[u8], target: &mut [u8]) -> bool
    ensures value { result ≡ blocks_fit source.now target.old }
    ensures new_target { target.new ≡ written source.now
        (cbc_encrypt (expand_key (load_block key.now)) (load_block vector.now) source.now)
        target.old }
{
    let keys = expand_key(first_block(key));
    let first = first_block(vector);
    cbc_encrypt(keys, first, source, target)
}

// Decrypts the source into the front of the target, as above. Two calls of C, a line each over aes: what they share is shared there.
#[unsafe(no_mangle)]
pub extern "C" fn bench_decrypt(key: &[u8], vector: &[u8], source: &[u8], target: &mut [u8]) -> bool
    ensures value { result ≡ blocks_fit source.now target.old }
    ensures new_target { target.new ≡ written source.now
        (cbc_decrypt (expand_key (load_block key.now)) (load_block vector.now) source.now)
        target.old }
{
    let keys = expand_key(first_block(key));
    let first = first_block(vector);
    cbc_decrypt(keys, first, source, target)
}
