// SPDX-License-Identifier: MPL-2.0
// The listing of document 01: a line for each message of a stream, as far as the stream and the output reach.
ghost use Rattle.std.specs.Prelude.{◌≡◌, ◌+◌, ◌^◌, ◌≤◌, ◌<◌, length, drop};
ghost use Rattle.std.proofs.lemmas.List.Edits.{sets};
ghost use Rattle.wire.specs.Reader.{read_header};
ghost use Rattle.lines.specs.Text.{put, put_end};
ghost use Rattle.lines.specs.Listing.{header_line, line_of, stops, tells, turn_at, turned, list, listed};

use super::stream::{Next, ahead};
use super::text::{put_field, put_name};
use octets::bounds::lacks;
use wire::header::{FoundHeader, Header, SHORTEST, read_header};
use wire::refusals::Refused;

// The room that a line needs in the output.
pub const LINE: usize = 64;

// Puts the line of a header and a message's length.
#[tactic(auto, using(crate::proofs::Puts::joined), unfolding(crate::specs::Listing::header_line))]
fn put_header(header: Header, size: u16, out: &mut [u8], at: usize) -> usize
    requires { at + 55 ≤ length out.old }
    ensures value { result ≡ at + length (header_line header size) }
    ensures new_out { out.new ≡ sets out.old at (header_line header size) }
{
    let sequence = put_field(header.kind.into(), b' ', out, at);
    let index = put_field(header.sequence, b' ', out, sequence);
    let count = put_field(header.index.into(), b' ', out, index);
    let last = put_field(header.count.into(), b' ', out, count);
    put_field(size.into(), b'\n', out, last)
}

// Puts the line of a message of n bytes at a place, and answers the place after it; where there is less room than a line
// needs, nothing is put and the place itself is the answer.
#[tactic(auto, unfolding(crate::specs::Listing::line_of, crate::specs::Text::put, crate::specs::Text::put_end))]
pub fn put_line(answer: Result<FoundHeader, Refused>, size: u16, out: &mut [u8], at: usize) -> usize
    ensures value { result ≡ put_end 64 at (line_of answer size) out.old }
    ensures new_out { out.new ≡ put 64 at (line_of answer size) out.old }
{
    if lacks(out.len(), at, LINE) {
        return at;
    }
    match answer {
        Err(refused) => put_name(b"refused ", refused.number().into(), out, at),
        Ok(found) => put_header(found.header, size, out, at),
    }
}

// Whether a run has more to do.
#[derive(Clone, Copy)]
pub enum Stage {
    // There may be more to do with this stream and this output.
    Going,
    // It waits for more of the stream, or for room.
    Waiting,
    // It is over: a message was refused, or the input has ended.
    Over,
}

// How far a listing has come.
#[derive(Clone, Copy)]
pub struct Listed {
    // The bytes of the stream that were taken.
    pub read: usize,
    // The bytes of the output that were written.
    pub written: usize,
    pub stage: Stage,
}

impl Listed {
    // No more is to be done with this stream.
    fn stopped(self, stage: Stage) -> Listed
        ensures { result ≡ turned self (stops stage) }
    {
        Listed { stage, ..self }
    }

    // Writes the line of a message that has n bytes.
    #[tactic(auto, unfolding(crate::specs::Text::put, crate::specs::Text::put_end))]
    fn tell(self, message: &[u8], size: u16, out: &mut [u8]) -> Listed
        requires size_bound { self.read + size < 2 ^ 64 }
        requires written_in_bounds { self.written + 64 ≤ length out.old }
        ensures value { result ≡ turned self (tells size (read_header message.now)) }
        ensures new_out { out.new ≡ sets out.old self.written (line_of (read_header message.now) size) }
    {
        let answer = read_header(message);
        Listed {
            read: self.read + size as usize,
            written: put_line(answer, size, out, self.written),
            stage: if answer.is_err() {
                Stage::Over
            } else {
                Stage::Going
            },
        }
    }

    // One turn: a message is listed if there is a whole one and room for its line.
    #[tactic(auto, unfolding(crate::specs::Listing::turn_at))]
    fn turn(self, stream: &[u8], ended: bool, out: &mut [u8]) -> Listed
        requires { self.read ≤ length stream.now }
        ensures value { result ≡ turned self (turn_at (drop self.read stream.now) ended (length out.old) self.written) }
        ensures new_out { out.new ≡ sets out.old self.written
            (turn_at (drop self.read stream.now) ended (length out.old) self.written).line }
    {
        if lacks(out.len(), self.written, LINE) {
            return self.stopped(Stage::Waiting);
        }
        let rest = &stream[self.read..];
        match ahead(rest, ended) {
            Next::Message(size) => self.tell(&rest[..size as usize], size, out),
            Next::More => self.stopped(Stage::Waiting),
            Next::End => self.stopped(Stage::Over),
        }
    }
}

// Lists the messages of a stream that are whole, as far as the output has room for lines. Where the input has ended, what is left
// at the end counts as a message, and the run is over when there is nothing left.
pub fn list(stream: &[u8], ended: bool, out: &mut [u8]) -> Listed
    ensures value { result ≡ listed (list stream.now ended (length out.old)) }
    ensures new_out { out.new ≡ sets out.old 0 (list stream.now ended (length out.old)).text }
{
    let mut run = Listed {
        read: 0,
        written: 0,
        stage: Stage::Going,
    };
    for _ in 0..stream.len() / SHORTEST + 2 {
        let Stage::Going = run.stage else { break };
        run = run.turn(stream, ended, out);
    }
    run
}
