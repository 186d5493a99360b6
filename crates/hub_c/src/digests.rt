// SPDX-License-Identifier: MPL-2.0
// Digest, HMAC and the comparison of tags.
ghost use Rattle.std.specs.Prelude.{◌≡◌};
ghost use Rattle.sha256.specs.Digests.{digest};
ghost use Rattle.sha256.specs.Macs.{hmac};
ghost use Rattle.hub_c.specs.Digesting.{filled, tags_differ};
ghost use Rattle.hub_c.specs.Sizes.{digest_size, sized};

use super::words::{WRONG_BUFFER, fill};

// The bytes of a digest and of a tag.
const DIGEST: usize = 32;

// The SHA-256 digest of bytes, into an output of 32.
#[unsafe(no_mangle)]
pub extern "C" fn hub_digest(bytes: &[u8], out: &mut [u8]) -> u32
    ensures value { result ≡ sized digest_size out.old 0 }
    ensures new_out { out.new ≡ filled (digest bytes.now) out.old }
{
    if out.len() != DIGEST {
        return WRONG_BUFFER;
    }
    let digest = sha256::digest(bytes);
    fill(out, &digest);
    0
}

// The HMAC-SHA-256 of a message under a key of any length, into an output of 32.
#[unsafe(no_mangle)]
pub extern "C" fn hub_hmac(key: &[u8], message: &[u8], out: &mut [u8]) -> u32
    ensures value { result ≡ sized digest_size out.old 0 }
    ensures new_out { out.new ≡ filled (hmac key.now message.now) out.old }
{
    if out.len() != DIGEST {
        return WRONG_BUFFER;
    }
    let tag = sha256::hmac(key, message);
    fill(out, &tag);
    0
}

// Whether two tags are alike: 0 if they are, 1 if not. The comparison reads every byte.
#[tactic(auto, unfolding(crate::specs::Digesting::tags_differ))]
#[unsafe(no_mangle)]
pub extern "C" fn hub_tags_differ(ours: &[u8], theirs: &[u8]) -> u32
    ensures { result ≡ tags_differ ours.now theirs.now }
{
    if (ours.len() != DIGEST) | (theirs.len() != DIGEST) {
        return WRONG_BUFFER;
    }
    let mut tag = [0u8; DIGEST];
    fill(&mut tag, ours);
    if sha256::same_tag(tag, theirs) {
        return 0;
    }
    1
}
