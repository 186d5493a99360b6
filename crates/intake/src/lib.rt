// SPDX-License-Identifier: MPL-2.0
// A program's standard input, a part of it at a time in a buffer that is read into, taken from at the front and read into again. And what else
// programs read by: as much of a file as a buffer has room for, the lines of a text.
#![tactic(auto)]

ghost use Rattle.std.specs.Prelude.{◌≡◌, ◌==◌, ◌≤◌, length, take, drop};
ghost use Rattle.std.specs.List.{position};
ghost use Rattle.std.specs.Io.KnownBytes.{Consumes};
ghost use Rattle.intake.specs.Buffer.{after_mark, between, Refilled};

use std::io::Read;

// What of the input is in the buffer: the first `held` bytes of it. And whether the input has ended; the bytes are there in either case, so
// that the flag is no variant of theirs.
#[derive(Clone, Copy)]
pub struct Held {
    pub held: usize,
    pub ended: bool,
}

// The first place of a text where the mark stands.
fn find(text: &[u8], mark: u8) -> Option<usize>
    ensures { result ≡ position (λ b. b == mark) text.now }
{
    text.iter().position(|byte| *byte == mark)
}

// The place after the next byte of a text that is the mark, or the text's end.
pub fn after_mark(text: &[u8], at: usize, mark: u8) -> usize
    ensures { result ≡ after_mark text.now at mark }
{
    let start = at.min(text.len());
    match find(&text[start..], mark) {
        Some(found) => start + found + 1,
        None => text.len(),
    }
}

// Reads on after the first `held` bytes. A read that fails counts as the end of the input.
fn read_on<R: Read>(source: &mut R, input: &mut [u8], held: usize) -> Held
    requires { held ≤ length input.old }
    ensures { Refilled (take held input.old) input.new result }
{
    let more = source.read(&mut input[held..]).unwrap_or(0);
    Held {
        held: held + more,
        ended: more == 0,
    }
}

// Keeps what the buffer holds between two places, at its front, and reads on after it, where there is room. The buffer is lent beside its places,
// since `Refilled` says what then stands in it.
pub fn refill<R: Read>(source: &mut R, input: &mut [u8], from: usize, to: usize) -> Held
    ensures held_in_bounds { result.held ≤ length input.new }
    ensures refilled { Refilled (between input.old from to) input.new result }
{
    let end = to.min(input.len());
    let start = from.min(end);
    input.copy_within(start..end, 0);
    read_on(source, input, end - start)
}

// Reads until a buffer is full, the input ends or a read fails, and answers how many bytes came. A read brings as many as it likes, so that no
// `for` counts them; of std's methods `read_to_end` wants a heap, and `read_exact` does not say how many came.
pub fn read_full<R: Read>(source: &mut R, buffer: &mut [u8]) -> usize
    ensures in_bounds { result ≤ length buffer.new }
    ensures bytes { Consumes (R.remaining source.old) (R.remaining source.new) (take result buffer.new) }
{
    let mut done = 0;
    while done < buffer.len() {
        match source.read(&mut buffer[done..]) {
            Ok(0) | Err(_) => break,
            Ok(more) => done += more,
        }
    }
    done
}
