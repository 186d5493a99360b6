// SPDX-License-Identifier: MPL-2.0
// A stream of messages that come back to back.
ghost use Rattle.std.specs.Prelude.{◌≡◌};
ghost use Rattle.hub_c.specs.Stream.{wanted_by};

use wire::header::{SHORTEST, wanted};

// The first bytes of a message, MessageLength with them.
const FIRST: usize = 4;

// The fewest bytes of a message.
const LEAST: u32 = SHORTEST as u32;

// How many bytes the next message of a stream has: "MessageLength bytes at a time, at least 42". Before MessageLength is there it is 42.
#[tactic(auto, unfolding(crate::specs::Stream::wanted_by))]
#[unsafe(no_mangle)]
pub extern "C" fn hub_wanted(bytes: &[u8]) -> u32
    ensures { result ≡ wanted_by bytes.now }
{
    if bytes.len() < FIRST {
        return LEAST;
    }
    wanted(bytes) as u32
}
