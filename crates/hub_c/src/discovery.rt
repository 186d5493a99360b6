// SPDX-License-Identifier: MPL-2.0
// What a Discovery payload says, in words.
//
//     0      1      2             3      5      7
//     | type | mode | device type | name | salt | hash
//
// A part is two words: from where, how many bytes. C has a call for either payload, and these say other things.
ghost use Rattle.std.specs.Prelude.{◌≡◌, length};
ghost use Rattle.laws.specs.Rows.{refusal_in};
ghost use Rattle.payloads.specs.Discovery.{read_discovery, discovery_told};
ghost use Rattle.hub_c.specs.Sizes.{discovery_size, sized, kept};
ghost use Rattle.hub_c.specs.Discovery.{discovery_words};

use super::connect::put_parts;
use super::words::{WRONG_BUFFER, put_three, refusal_in};
use payloads::discovery::FoundDiscovery;

// The words of what a Discovery payload says.
const DISCOVERY: usize = 9;

// Puts all words.
fn put_discovery(found: FoundDiscovery, out: &mut [u64])
    requires { length out.old ≡ discovery_size }
    ensures { out.new ≡ discovery_words found }
{
    put_three(
        out,
        0,
        found.discovery as u64,
        found.mode as u64,
        found.device as u64,
    );
    put_parts(out, found.name, found.salt, found.hash);
}

// Takes a Discovery payload apart: its words; or refuses with 14 what is none, and all words are 0.
#[unsafe(no_mangle)]
pub extern "C" fn hub_read_discovery(payload: &[u8], discovery: &mut [u64]) -> u32
    ensures value { result ≡ sized discovery_size discovery.old (refusal_in (read_discovery payload.now)) }
    ensures new_discovery { discovery.new ≡ kept discovery_size discovery.old
        (discovery_words (discovery_told (read_discovery payload.now))) discovery.old }
{
    if discovery.len() != DISCOVERY {
        return WRONG_BUFFER;
    }
    let answer = payloads::discovery::read_discovery(payload);
    put_discovery(answer.unwrap_or(FoundDiscovery::nothing()), discovery);
    refusal_in(&answer)
}
