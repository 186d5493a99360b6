// SPDX-License-Identifier: MPL-2.0
// The hub's main job, on files: a capture of messages on standard input is played through a connection, message by message, and each
// report that is complete is written to a file.
#![tactic(auto)]

mod answer;
mod arguments;
mod report;

use answer::put_answer;
use arguments::{Asked, LARGEST, read_arguments};
use hub::{Answer, Connection};
use intake::{Held, refill};
use lines::listing::LINE;
use lines::stream::{Next, ahead};
use report::save;
use std::io::Read;
use std::rt::Files;

// The most pieces of a report.
const PIECES: usize = 64;

// The bytes of the longest report.
const LONGEST: usize = PIECES * LARGEST;

// A connection that plays messages, with what each step of it takes: the keys and the verdict, and the buffers that it works in.
#[derive(Drop)]
struct Player<'a> {
    connection: Connection,
    keys: &'a [u8],
    verdict: u8,
    working: &'a mut [u8],
    report: &'a mut [u8],
}

// Writes the line of an answer.
fn tell(rt: &impl Print, answer: Answer) {
    let mut line = [0u8; LINE];
    let end = put_answer(answer, &mut line, 0).min(LINE);
    let _ = rt.write_all(&line[..end]);
}

impl Player<'_> {
    // Plays a message: the step, the answer's line, and the report if it is complete, which has the number that was expected.
    fn play(&mut self, rt: &(impl Files + Print + Eprint), message: &[u8]) {
        let sequence = self.connection.progress.expected;
        let stepped = self.connection.step(
            message,
            self.keys,
            self.working,
            self.report,
            self.verdict,
        );
        self.connection = stepped.connection;
        tell(rt, stepped.answer);
        if let Answer::Complete { length, heard: _ } = stepped.answer {
            let end = length.min(self.report.len());
            save(rt, &self.report[..end], sequence);
        }
    }
}

// Plays the messages of an input, one after the other, and reads on where the buffer holds no whole one. Every turn takes a byte or is among the
// last, so that no input reaches the end of the counter.
fn play_all<R: Read>(
    rt: &(impl Files + Print + Eprint),
    source: &mut R,
    input: &mut [u8],
    player: &mut Player,
) {
    let mut held = Held {
        held: 0,
        ended: false,
    };
    let mut played = 0;
    for _ in 0..u64::MAX {
        let rest = &input[played..held.held];
        match ahead(rest, held.ended) {
            Next::Message(size) => {
                player.play(rt, &rest[..size as usize]);
                played += size as usize;
            }
            Next::More => {
                held = refill(source, input, played, held.held);
                played = 0;
            }
            Next::End => break,
        }
    }
}

// Plays standard input through a connection of the size that is asked for, with a buffer for the longest report, of which it lends as much as
// its own reports need.
fn run(rt: &HostRuntime, asked: &Asked, report: &mut [u8; LONGEST]) {
    let mut input = [0u8; 262144];
    let mut working = [0u8; 65536];
    let room = PIECES * asked.size.min(LARGEST);
    let mut player = Player {
        connection: Connection::open(asked.size).connection,
        keys: &asked.keys,
        verdict: asked.verdict,
        working: &mut working,
        report: &mut report[..room],
    };
    play_all(rt, &mut rt.stdin(), &mut input, &mut player);
}

fn main(rt: HostRuntime) {
    match read_arguments(&rt) {
        Ok(asked) => run(&rt, &asked, &mut [0u8; LONGEST]),
        Err(wrong) => {
            let _ = eprintln!(rt;
                "replay: {wrong}; usage: replay KEYS F [VERDICT] < CAPTURE, KEYS a file of 64 bytes, F from 1 to 16384, VERDICT 0 or 1"
            );
        }
    }
}
