// SPDX-License-Identifier: MPL-2.0
// The line of an answer: its name and its number.
ghost use Rattle.std.specs.Prelude.{◌≡◌};
ghost use Rattle.lines.specs.Text.{put, put_end};
ghost use Rattle.replay.specs.Lines.{shown, answer_line};

use hub::Answer;
use lines::listing::LINE;
use lines::text::{put_named, put_text};
use octets::bounds::lacks;

// A number that fits 32 bits, as every count of pieces and every length of a report does.
#[tactic(auto, unfolding(crate::specs::Lines::shown))]
fn short(number: usize) -> u32
    ensures { result ≡ shown number }
{
    u32::try_from(number).unwrap_or(u32::MAX)
}

// Puts the line of an answer at a place, and answers the place after it; where there is less room than a line needs, nothing is put and the place
// itself is the answer. `Display` with `writeln!` was tried: a formatter promises its text only where each write succeeds, and `InlineText::of` a
// text or a part of it, so that no proof of `new_out` closed.
#[tactic(auto, unfolding(crate::specs::Lines::answer_line, lines::specs::Text::put, lines::specs::Text::put_end))]
pub(crate) fn put_answer(answer: Answer, out: &mut [u8], at: usize) -> usize
    ensures value { result ≡ put_end 64 at (answer_line answer) out.old }
    ensures new_out { out.new ≡ put 64 at (answer_line answer) out.old }
{
    if lacks(out.len(), at, LINE) {
        return at;
    }
    match answer {
        Answer::Refused(refused) => put_named(b"refused ", refused.number().into(), out, at),
        Answer::Reply(connect) => put_named(b"reply ", connect.into(), out, at),
        Answer::Again(connect) => put_named(b"again ", connect.into(), out, at),
        Answer::Failure => put_text(b"failure\n", out, at),
        Answer::Taken(heard) => put_named(b"taken ", short(heard), out, at),
        Answer::Repeat(heard) => put_named(b"repeat ", short(heard), out, at),
        Answer::Complete { length, heard: _ } => put_named(b"complete ", short(length), out, at),
    }
}
