// SPDX-License-Identifier: MPL-2.0
// Messages that come back to back: where the first of them ends.
ghost use Rattle.std.specs.Prelude.{◌≡◌};
ghost use Rattle.lines.specs.Stream.{ahead};

use wire::header::wanted;

// What a stream begins with: three cases, which no Option or Result has.
#[derive(Clone, Copy)]
pub enum Next {
    // A message of n bytes; where the input has ended, also what is left of one.
    Message(u16),
    // The beginning of a message, or nothing yet.
    More,
    // Nothing, and nothing will come.
    End,
}

// The first message of a stream: "MessageLength bytes at a time, at least 42, or what is left".
#[tactic(auto, unfolding(crate::specs::Stream::ahead))]
pub fn ahead(stream: &[u8], ended: bool) -> Next
    ensures { result ≡ ahead stream.now ended }
{
    let size = wanted(stream);
    let given = stream.len();
    if size <= given {
        return Next::Message(size as u16);
    }
    if !ended {
        return Next::More;
    }
    if given == 0 {
        return Next::End;
    }
    Next::Message(given as u16)
}
