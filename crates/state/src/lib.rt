// SPDX-License-Identifier: MPL-2.0
// A connection in the bytes of its state, numbers big-endian as on the wire:
//
//     0               8       9           17      25  57  89                   121               125         133     141       149           151
//     | fragment size | state | SessionID | nonce | X | Y | certificate digest | expected number | heard set | count | channel | last length |
//
// Index i of the heard set is bit i % 8, of the value 2^(i % 8), of its byte i / 8. The places from 133 on move with the number of pieces that a
// report may have, here 64. Any bytes of this number are a connection, and any connection is this number of bytes.
#![tactic(auto)]

pub mod client;

ghost use Rattle.std.specs.Prelude.{◌≡◌, ◌<◌, ◌≤◌, ◌+◌, length};
ghost use Rattle.std.proofs.lemmas.List.Edits.{sets};
ghost use Rattle.laws.specs.Bytes.{bytes_at};
ghost use Rattle.joining.specs.Heard.{most};
ghost use Rattle.state.specs.Layout.{size_place, expected_place, heard_size, state_size};
ghost use Rattle.state.specs.State.{bit_at, heard_at, value, heard_byte, heard_bytes, progress_at, connection_at, progress_bytes, state_bytes};

use hub::Connection;
use joining::Progress;
use octets::numbers::{byte, number16, number32, number64};
use octets::stores::{store_bytes, store8, store16, store32, store64};
use std::array::from_fn;
use wire::header::MOST_PIECES;

// The largest number of pieces that a report has.
const PIECES: usize = MOST_PIECES as usize;

// The bytes of the heard set.
const HEARD: usize = PIECES / 8;

// Where each part stands, in the type in which the load and the store of its width take their place: each is the one before plus its size.
const SIZE_AT: u8 = 0;

const STATE_AT: usize = SIZE_AT as usize + 8;

const SESSION_AT: u8 = STATE_AT as u8 + 1;

const NONCE_AT: usize = SESSION_AT as usize + 8;

const X_AT: usize = NONCE_AT + 8;

const Y_AT: usize = X_AT + 32;

const DIGEST_AT: usize = Y_AT + 32;

const EXPECTED_AT: u16 = DIGEST_AT as u16 + 32;

const HEARD_AT: usize = EXPECTED_AT as usize + 4;

const COUNT_AT: u8 = (HEARD_AT + HEARD) as u8;

const CHANNEL_AT: u8 = COUNT_AT + 8;

const LAST_AT: u32 = CHANNEL_AT as u32 + 8;

// The bytes of a state.
pub const STATE: usize = LAST_AT as usize + 2;

// Index i of the heard set.
fn bit_at(s: &[u8], i: usize) -> bool
    ensures { result ≡ bit_at s.now i }
{
    (byte(s, HEARD_AT + i / 8) >> (i % 8)) % 2 == 1
}

// The heard set.
#[tactic(auto, unfolding(wire::specs::Fields::most_pieces))]
fn heard_at(s: &[u8]) -> [bool; PIECES]
    ensures { result ≡ heard_at s.now most }
{
    from_fn(|i| bit_at(s, i))
}

// The bytes at a place, as many as the array has.
fn bytes_at<const N: usize>(s: &[u8], at: usize) -> [u8; N]
    requires { at + N ≤ length s.now }
    ensures { result ≡ bytes_at s.now at N }
{
    let mut bytes = [0u8; N];
    bytes.copy_from_slice(&s[at..at + N]);
    bytes
}

// How far the expected message has come.
#[tactic(auto, unfolding(wire::specs::Fields::most_pieces))]
fn progress_at(s: &[u8]) -> Progress
    ensures { result ≡ progress_at s.now }
{
    Progress {
        expected: number32(s, EXPECTED_AT),
        heard: heard_at(s),
        count: number64(s, COUNT_AT) as usize,
        channel: number64(s, CHANNEL_AT),
        last: number16(s, LAST_AT),
    }
}

// The connection of a state. This and the one of a gateway are no `From`: neither the connection nor the array is of this crate.
#[tactic(auto, unfolding(crate::specs::State::connection_at))]
pub fn decode(s: &[u8; STATE]) -> Connection
    ensures { result ≡ connection_at s.now }
{
    Connection {
        size: number64(s, SIZE_AT) as usize,
        state: byte(s, STATE_AT),
        session: number64(s, SESSION_AT),
        nonce: bytes_at(s, NONCE_AT),
        x: bytes_at(s, X_AT),
        y: bytes_at(s, Y_AT),
        digest: bytes_at(s, DIGEST_AT),
        progress: progress_at(s),
    }
}

// Bits as a number, the first having the value 1.
fn value(bits: &[bool]) -> u8
    requires { length bits.now ≤ 8 }
    ensures { result ≡ value bits.now }
{
    let mut value = 0;
    for (k, bit) in bits.iter().enumerate() {
        value += u8::from(*bit) << k;
    }
    value
}

// Eight indexes of the heard set as a byte.
#[tactic(auto, unfolding(wire::specs::Fields::most_pieces))]
fn heard_byte(heard: &[bool; PIECES], i: usize) -> u8
    requires { i < heard_size }
    ensures { result ≡ heard_byte heard.now i }
{
    value(&heard[8 * i..8 * i + 8])
}

// The bytes of the heard set.
#[tactic(auto, unfolding(wire::specs::Fields::most_pieces))]
fn heard_bytes(heard: &[bool; PIECES]) -> [u8; HEARD]
    ensures { result ≡ heard_bytes heard.now heard_size }
{
    from_fn(|i| heard_byte(heard, i))
}

// Puts the progress, part by part.
#[tactic(auto, unfolding(wire::specs::Fields::most_pieces))]
fn put_progress(p: &Progress, out: &mut [u8])
    ensures { out.new ≡ sets out.old expected_place (progress_bytes p.now) }
{
    store32(out, EXPECTED_AT, p.expected);
    store_bytes(out, HEARD_AT, &heard_bytes(&p.heard));
    store64(out, COUNT_AT, p.count as u64);
    store64(out, CHANNEL_AT, p.channel);
    store16(out, LAST_AT, p.last);
}

// Puts the state of a connection from the beginning of a buffer on, part by part. A byte past its end is dropped.
#[tactic(auto, unfolding(wire::specs::Fields::most_pieces))]
pub fn put_connection(c: &Connection, out: &mut [u8])
    ensures new_out { out.new ≡ sets out.old size_place (state_bytes c.now) }
    ensures size { length (state_bytes c.now) ≡ state_size }
{
    store64(out, SIZE_AT, c.size as u64);
    store8(out, STATE_AT, c.state);
    store64(out, SESSION_AT, c.session);
    store_bytes(out, NONCE_AT, &c.nonce);
    store_bytes(out, X_AT, &c.x);
    store_bytes(out, Y_AT, &c.y);
    store_bytes(out, DIGEST_AT, &c.digest);
    put_progress(&c.progress, out);
}
