// SPDX-License-Identifier: MPL-2.0
// Opening a connection and stepping it, in its state buffer.
ghost use Rattle.std.specs.Prelude.{◌≡◌, cond, length};
ghost use Rattle.hub.specs.Answers.{said};
ghost use Rattle.hub.specs.Opening.{opened};
ghost use Rattle.admission.specs.Admission.{working_admitted};
ghost use Rattle.hub.specs.Step.{step, report_stepped};
ghost use Rattle.state.specs.Layout.{state_size};
ghost use Rattle.state.specs.State.{connection_at, state_bytes};
ghost use Rattle.hub_c.specs.Sizes.{wrong_buffer, answer_size, sized, kept};
ghost use Rattle.hub_c.specs.Answered.{state_after, answer_after, verdict_of, short_report, wrong_step};

use super::words::{ANSWER, WRONG_BUFFER, hand_said};
use hub::Connection;
use joining::cut::bad_size;
use state::{STATE, decode, put_connection};
use wire::header::MOST_PIECES;

// The most pieces of a report.
const PIECES: usize = MOST_PIECES as usize;

// Puts the state of a connection over the whole of its buffer.
fn put_state(state: &mut [u8], c: &Connection)
    requires { length state.old ≡ state_size }
    ensures { state.new ≡ state_bytes c.now }
{
    put_connection(c, state);
}

// Opens a connection of this fragment size into a state buffer. Refused with 24 the state is that of the connection that is all zero.
#[tactic(auto, unfolding(wire::specs::Fields::most_pieces))]
#[unsafe(no_mangle)]
pub extern "C" fn hub_open(fragment_size: u64, state: &mut [u8]) -> u32
    ensures value { result ≡ sized state_size state.old (opened fragment_size).refusal }
    ensures new_state { state.new ≡ kept state_size state.old (state_bytes (opened fragment_size).connection)
        state.old }
{
    if state.len() != STATE {
        return WRONG_BUFFER;
    }
    let opened = Connection::open(fragment_size as usize);
    put_state(state, &opened.connection);
    opened.refusal as u32
}

// The verdict as a step takes it, in either role. Every word but 0 and 1 is one that it refuses with 25.
pub(crate) fn verdict_of(word: u64) -> u8
    ensures { result ≡ verdict_of word }
{
    if word < 2 { word as u8 } else { 2 }
}

// The report buffer is shorter than the report, whose length is known once the piece with the last index has come.
#[tactic(auto, unfolding(crate::specs::Answered::short_report, wire::specs::Fields::most_pieces))]
fn short_report(connection: Connection, room: usize) -> bool
    ensures { result ≡ short_report connection room }
{
    let held = connection.progress;
    if bad_size(connection.size) | (held.count == 0) | (PIECES < held.count) {
        return false;
    }
    let last = held.count - 1;
    held.heard[last] & (room < connection.size * last + usize::from(held.last))
}

// One message on the connection in a state buffer: refused, with state and report as they were and the answer's words 0; or the next state,
// and the answer in three words: kind, value, length. The length is never more than the report buffer has: one that is shorter than the report
// is a wrong buffer.
#[tactic(auto, unfolding(crate::specs::Answered::state_after, wire::specs::Fields::most_pieces))]
#[unsafe(no_mangle)]
pub extern "C" fn hub_step(
    state: &mut [u8],
    message: &[u8],
    keys: &[u8],
    working: &mut [u8],
    report: &mut [u8],
    verdict: u64,
    answer: &mut [u64],
) -> u32
    ensures value { result ≡ cond (wrong_step state.old report.old answer.old) wrong_buffer
        (said (step (connection_at state.old) message.now keys.now working.old
        report.old (verdict_of verdict)).answer).refusal }
    ensures new_state { state.new ≡ cond (wrong_step state.old report.old answer.old) state.old
        (state_after (step (connection_at state.old) message.now keys.now working.old
        report.old (verdict_of verdict)) state.old) }
    ensures new_working { working.new ≡ cond (wrong_step state.old report.old answer.old) working.old
        (working_admitted (connection_at state.old).size (verdict_of verdict) message.now keys.now
        working.old) }
    ensures new_report { report.new ≡ cond (wrong_step state.old report.old answer.old) report.old
        (report_stepped (connection_at state.old) message.now keys.now working.old
        report.old (verdict_of verdict)) }
    ensures new_answer { answer.new ≡ cond (wrong_step state.old report.old answer.old) answer.old
        (answer_after (step (connection_at state.old) message.now keys.now working.old
        report.old (verdict_of verdict))) }
{
    if answer.len() != ANSWER {
        return WRONG_BUFFER;
    }
    let Some(held) = state.as_array() else {
        return WRONG_BUFFER;
    };
    let connection = decode(held);
    if short_report(connection, report.len()) {
        return WRONG_BUFFER;
    }
    let stepped = connection.step(message, keys, working, report, verdict_of(verdict));
    let refusal = hand_said(stepped.answer.into(), answer);
    if refusal != 0 {
        return refusal;
    }
    put_state(state, &stepped.connection);
    0
}
