// SPDX-License-Identifier: MPL-2.0
// The comparison of two tags.
ghost use Rattle.std.specs.Prelude.{◌≡◌};
ghost use Rattle.sha256.specs.Tags.{differing};

// The bits in which two tags differ, all bytes or-ed together.
#[tactic(auto, unfolding(crate::specs::Tags::differing))]
pub(crate) fn differences(ours: &[u8], theirs: &[u8]) -> u8
    ensures { result ≡ differing ours.now theirs.now }
{
    ours.iter()
        .zip(theirs)
        .fold(0, |bits, (our, their)| bits | (*our ^ *their))
}
