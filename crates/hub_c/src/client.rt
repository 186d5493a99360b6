// SPDX-License-Identifier: MPL-2.0
// The gateway's side: opening its connection, stepping it and asking which request is due, in its state buffer.
ghost use Rattle.std.specs.Prelude.{◌≡◌, ◌∷◌, [], cond, length};
ghost use Rattle.admission.specs.Admission.{working_admitted};
ghost use Rattle.gateway.specs.Answers.{said, due_in, due_number};
ghost use Rattle.gateway.specs.Opening.{opened};
ghost use Rattle.gateway.specs.Step.{step};
ghost use Rattle.state.specs.Client.{gateway_size, gateway_at, gateway_bytes};
ghost use Rattle.hub_c.specs.Sizes.{wrong_buffer, answer_size, sized, kept};
ghost use Rattle.hub_c.specs.Answered.{verdict_of};
ghost use Rattle.hub_c.specs.Client.{gateway_after, gateway_answer, wrong_gateway_step, wrong_gateway_due};

use super::connection::verdict_of;
use super::words::{ANSWER, WRONG_BUFFER, hand_said, put_length};
use gateway::{Gateway, due_number};
use state::client::{GATEWAY, decode_gateway, put_gateway};

// The words of the request that is due.
const DUE: usize = 1;

// Puts the state of a gateway's connection over the whole of its buffer: as that of the hub's, but of other parts, proved by another law.
fn put_state(state: &mut [u8], g: &Gateway)
    requires { length state.old ≡ gateway_size }
    ensures { state.new ≡ gateway_bytes g.now }
{
    put_gateway(g, state);
}

// Opens a gateway's connection of this fragment size and SessionID. Refused with 24 it is all zero.
#[unsafe(no_mangle)]
pub extern "C" fn hub_gateway_open(fragment_size: u64, session: u64, gateway: &mut [u8]) -> u32
    ensures value { result ≡ sized gateway_size gateway.old (opened fragment_size session).refusal }
    ensures new_gateway { gateway.new ≡ kept gateway_size gateway.old (gateway_bytes (opened fragment_size session).gateway)
        gateway.old }
{
    if gateway.len() != GATEWAY {
        return WRONG_BUFFER;
    }
    let opened = Gateway::open(fragment_size as usize, session);
    put_state(gateway, &opened.gateway);
    opened.refusal as u32
}

// One message on the gateway's connection in a state buffer: refused, with the connection as it was and the answer's words 0; or the next
// connection, and the answer in three words: kind, value, 0.
#[tactic(auto, unfolding(crate::specs::Client::gateway_after))]
#[unsafe(no_mangle)]
pub extern "C" fn hub_gateway_step(
    gateway: &mut [u8],
    message: &[u8],
    keys: &[u8],
    working: &mut [u8],
    verdict: u64,
    answer: &mut [u64],
) -> u32
    ensures value { result ≡ cond (wrong_gateway_step gateway.old answer.old) wrong_buffer
        (said (step (gateway_at gateway.old) message.now keys.now working.old
        (verdict_of verdict)).answer).refusal }
    ensures new_gateway { gateway.new ≡ cond (wrong_gateway_step gateway.old answer.old) gateway.old
        (gateway_after (step (gateway_at gateway.old) message.now keys.now working.old
        (verdict_of verdict)) gateway.old) }
    ensures new_working { working.new ≡ cond (wrong_gateway_step gateway.old answer.old) working.old
        (working_admitted (gateway_at gateway.old).size (verdict_of verdict) message.now keys.now
        working.old) }
    ensures new_answer { answer.new ≡ cond (wrong_gateway_step gateway.old answer.old) answer.old
        (gateway_answer (step (gateway_at gateway.old) message.now keys.now working.old
        (verdict_of verdict))) }
{
    if answer.len() != ANSWER {
        return WRONG_BUFFER;
    }
    let Some(held) = gateway.as_array() else {
        return WRONG_BUFFER;
    };
    let held = decode_gateway(held);
    let stepped = held.step(message, keys, working, verdict_of(verdict));
    let refusal = hand_said(stepped.answer.into(), answer);
    if refusal != 0 {
        return refusal;
    }
    put_state(gateway, &stepped.gateway);
    0
}

// The request that is due on the gateway's connection in a state buffer: its type, or 256 where none is.
#[unsafe(no_mangle)]
pub extern "C" fn hub_gateway_due(gateway: &[u8], due: &mut [u64]) -> u32
    ensures value { result ≡ cond (wrong_gateway_due gateway.now due.old) wrong_buffer 0 }
    ensures new_due { due.new ≡ cond (wrong_gateway_due gateway.now due.old) due.old
        (due_number (due_in (gateway_at gateway.now).state) ∷ []) }
{
    let Some(held) = gateway.as_array() else {
        return WRONG_BUFFER;
    };
    if due.len() != DUE {
        return WRONG_BUFFER;
    }
    put_length(due, due_number(decode_gateway(held).due()));
    0
}
