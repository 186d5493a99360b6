// SPDX-License-Identifier: MPL-2.0
// The listing program of document 01: lists the messages that come back to back on standard input, a line each.
#![tactic(auto)]

ghost use Rattle.std.specs.Prelude.{◌≡◌, ◌≤◌, length, take};
ghost use Rattle.std.proofs.lemmas.List.Edits.{sets};
ghost use Rattle.listing.specs.Turns.{turn_on, TurnedBy, Ran};

use intake::{Held, refill};
use lines::listing::{Stage, list};
use std::io;
use std::io::{Read, Write};

// What a turn leaves: what is then held, or nothing where the run is over. An error where what it listed was not written.
type Went = io::Result<Option<Held>>;

// What a run comes to: what its last turn left, and the turns that its counter has left.
#[derive(Drop)]
struct Finish {
    last: Went,
    turns: u64,
}

// A buffer. It has room for any message and for any line, so that there is always room to read on (`RoomToRead`, in lines).
fn buffer() -> [u8; 262144]
    ensures { 262144 ≡ length result }
{
    [0; 262144]
}

// One turn: lists what is in the buffer, writes the lines, keeps what is left of the input and reads on. The buffer stands beside what it holds,
// since `list` and `refill` are lent the one and answer of the other.
fn turn<R: Read, W: Write>(
    source: &mut R,
    input: &mut [u8],
    held: Held,
    sink: &mut W,
    out: &mut [u8],
) -> Went
    requires { held.held ≤ length input.old }
    ensures turned_by { TurnedBy (turn_on (take held.held input.old) held.ended (length out.old)) input.new result }
    ensures new_out { out.new ≡ sets out.old 0
        (turn_on (take held.held input.old) held.ended (length out.old)).text }
{
    let listed = list(&input[..held.held], held.ended, out);
    let written = listed.written.min(out.len());
    sink.write_all(&out[..written])?;
    if let Stage::Over = listed.stage {
        return Ok(None);
    }
    Ok(Some(refill(source, input, listed.read, held.held)))
}

// Turn after turn, until the run is over. An input of n bytes takes at most 2 n + 2 of them (`RunStops`), so that none of fewer than
// 2^63 - 1 bytes brings the counter to its end.
fn run<R: Read, W: Write>(source: &mut R, input: &mut [u8], sink: &mut W, out: &mut [u8]) -> Finish
    ensures { Ran (length out.old) result }
{
    let mut held = Held {
        held: 0,
        ended: false,
    };
    for turns in (0..u64::MAX).rev() {
        match turn(source, input, held, sink, out) {
            Ok(Some(next)) => held = next,
            last => return Finish { last, turns },
        }
    }
    Finish {
        last: Ok(Some(held)),
        turns: 0,
    }
}

fn main(rt: HostRuntime) {
    let mut source = rt.stdin();
    let mut sink = rt.stdout();
    let mut input = buffer();
    let mut out = buffer();
    run(&mut source, &mut input, &mut sink, &mut out);
}
