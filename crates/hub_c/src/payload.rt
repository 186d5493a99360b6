// SPDX-License-Identifier: MPL-2.0
// The payloads of Discovery and Connect written, each at the start of its output, with its length in one word. A buffer of another size than the
// call asks for, or a word with no room in its field, is 255; then 14 and 22 refuse, leave the output as it was, and the length is 0.
// C has a call for each payload, so that these begin alike, each with the test of its own words.
ghost use Rattle.std.specs.Prelude.{◌≡◌, true, false, ◌&&◌, length, eqb};
ghost use Rattle.payloads.specs.Format.{◌and◌};
ghost use Rattle.payloads.specs.Shapes.{presence_request, presence_response, connection_request, device_authentication, done_request, done_response};
ghost use Rattle.writer.specs.Payload.{exchange_values, response_format, response_values};
ghost use Rattle.hub_c.specs.Payload.{nonce_size, coordinate_size, wrong_words, wrong_exchange, wrong_request, wrong_response};
ghost use Rattle.hub_c.specs.Payload.{wrong_presence, wrong_presence_response, exchange_of, number_given, bytes_given, length_given};

use super::words::{MOST_BYTE, MOST_SHORT, WRONG_BUFFER, fill, hand_length};
use payloads::reading::Request;
use payloads::{HASH_SIZE, PENDING, SALT_SIZE};
use writer::payload::{
    write_connection_request, write_connection_response, write_device_authentication,
    write_done_request, write_done_response, write_presence_request, write_presence_response,
};

// The bytes of a nonce, and of X and of Y.
const NONCE: usize = 8;

const COORDINATE: usize = 32;

// The Result of a Connection Response that is Pending.
const PENDING_RESULT: u64 = PENDING as u64;

// The buffer of the length has another size, or mode or code has no room in its field.
#[tactic(auto, unfolding(crate::specs::Payload::wrong_words))]
fn wrong_words(size: usize, mode: u64, code: u64) -> bool
    ensures { result ≡ wrong_words size mode code }
{
    (size != 1) | (MOST_SHORT < mode) | (MOST_BYTE < code)
}

// Nonce, X or Y has another size.
#[tactic(auto, unfolding(crate::specs::Payload::wrong_exchange))]
fn wrong_exchange(nonce: usize, x: usize, y: usize) -> bool
    ensures { result ≡ wrong_exchange nonce x y }
{
    (nonce != NONCE) | (x != COORDINATE) | (y != COORDINATE)
}

// Nonce, X and Y, as a payload writer takes them. By itself, so that its arrays are not on the stack of the calls that write.
#[inline(never)]
fn request_of(nonce: &[u8], x: &[u8], y: &[u8]) -> Request
    requires { (length nonce.now ≡ nonce_size) × (length x.now ≡ coordinate_size) × (length y.now ≡ coordinate_size) }
    ensures { result ≡ exchange_of nonce.now x.now y.now }
{
    let mut held = [0u8; NONCE];
    let mut first = [0u8; COORDINATE];
    let mut second = [0u8; COORDINATE];
    fill(&mut held, nonce);
    fill(&mut first, x);
    fill(&mut second, y);
    Request {
        nonce: held,
        x: first,
        y: second,
    }
}

// Writes the payload of a Presence Request.
#[unsafe(no_mangle)]
pub extern "C" fn hub_write_presence_request(out: &mut [u8], size: &mut [u64]) -> u32
    ensures value { result ≡ number_given (wrong_words (length size.old) 0 0) presence_request tt out.old }
    ensures new_out { out.new ≡ bytes_given (wrong_words (length size.old) 0 0) presence_request tt out.old }
    ensures new_size { size.new ≡ length_given (wrong_words (length size.old) 0 0) presence_request tt out.old
        size.old }
{
    if wrong_words(size.len(), 0, 0) {
        return WRONG_BUFFER;
    }
    hand_length(write_presence_request(out), size)
}

// Salt or hash has another size, or the device type has no room in its field.
#[tactic(auto, unfolding(crate::specs::Payload::wrong_presence))]
fn wrong_presence(device: u64, salt: usize, hash: usize) -> bool
    ensures { result ≡ wrong_presence device salt hash }
{
    (MOST_SHORT < device) | (salt != SALT_SIZE) | (hash != HASH_SIZE)
}

// Writes the payload of a Presence Response.
#[unsafe(no_mangle)]
pub extern "C" fn hub_write_presence_response(
    mode: u64,
    device: u64,
    name: &[u8],
    salt: &[u8],
    hash: &[u8],
    out: &mut [u8],
    size: &mut [u64],
) -> u32
    ensures value { result ≡ number_given (wrong_presence_response mode device salt.now hash.now size.old)
        presence_response (mode and device and name.now and salt.now and hash.now and tt) out.old }
    ensures new_out { out.new ≡ bytes_given (wrong_presence_response mode device salt.now hash.now size.old)
        presence_response (mode and device and name.now and salt.now and hash.now and tt) out.old }
    ensures new_size { size.new ≡ length_given (wrong_presence_response mode device salt.now hash.now size.old)
        presence_response (mode and device and name.now and salt.now and hash.now and tt) out.old
        size.old }
{
    if wrong_words(size.len(), mode, 0) | wrong_presence(device, salt.len(), hash.len()) {
        return WRONG_BUFFER;
    }
    hand_length(
        write_presence_response(mode as u16, device as u16, name, salt, hash, out),
        size,
    )
}

// Writes the payload of a Connection Request.
#[unsafe(no_mangle)]
pub extern "C" fn hub_write_connection_request(
    mode: u64,
    nonce: &[u8],
    x: &[u8],
    y: &[u8],
    out: &mut [u8],
    size: &mut [u64],
) -> u32
    ensures value { result ≡ number_given (wrong_request mode nonce.now x.now y.now size.old)
        connection_request (exchange_values mode (exchange_of nonce.now x.now y.now)) out.old }
    ensures new_out { out.new ≡ bytes_given (wrong_request mode nonce.now x.now y.now size.old)
        connection_request (exchange_values mode (exchange_of nonce.now x.now y.now)) out.old }
    ensures new_size { size.new ≡ length_given (wrong_request mode nonce.now x.now y.now size.old)
        connection_request (exchange_values mode (exchange_of nonce.now x.now y.now)) out.old
        size.old }
{
    if wrong_words(size.len(), mode, 0) | wrong_exchange(nonce.len(), x.len(), y.len()) {
        return WRONG_BUFFER;
    }
    let request = request_of(nonce, x, y);
    hand_length(write_connection_request(mode as u16, request, out), size)
}

// Nonce, X and Y of a Connection Response that is Pending; what stands for those of another is not looked at.
fn request_if(pending: bool, nonce: &[u8], x: &[u8], y: &[u8]) -> Request
    requires { (pending && wrong_exchange (length nonce.now) (length x.now) (length y.now)) ≡ false }
    ensures { pending ≡ true → result ≡ exchange_of nonce.now x.now y.now }
{
    if pending {
        return request_of(nonce, x, y);
    }
    Request {
        nonce: [0u8; NONCE],
        x: [0u8; COORDINATE],
        y: [0u8; COORDINATE],
    }
}

// Writes the payload of a Connection Response. Only one that is Pending carries nonce, X and Y, and looks at them.
#[unsafe(no_mangle)]
pub extern "C" fn hub_write_connection_response(
    mode: u64,
    res: u64,
    nonce: &[u8],
    x: &[u8],
    y: &[u8],
    out: &mut [u8],
    size: &mut [u64],
) -> u32
    ensures value { result ≡ number_given (wrong_response mode res nonce.now x.now y.now
        size.old) (response_format (eqb res 1)) (response_values (eqb res 1) mode res
        (exchange_of nonce.now x.now y.now)) out.old }
    ensures new_out { out.new ≡ bytes_given (wrong_response mode res nonce.now x.now y.now
        size.old) (response_format (eqb res 1)) (response_values (eqb res 1) mode res
        (exchange_of nonce.now x.now y.now)) out.old }
    ensures new_size { size.new ≡ length_given (wrong_response mode res nonce.now x.now y.now
        size.old) (response_format (eqb res 1)) (response_values (eqb res 1) mode res
        (exchange_of nonce.now x.now y.now)) out.old size.old }
{
    let pending = res == PENDING_RESULT;
    if wrong_words(size.len(), mode, res)
        | (pending & wrong_exchange(nonce.len(), x.len(), y.len()))
    {
        return WRONG_BUFFER;
    }
    let request = request_if(pending, nonce, x, y);
    hand_length(
        write_connection_response(mode as u16, res as u8, request, out),
        size,
    )
}

// Writes the payload of a Device Authentication Request or Response, by its type.
#[unsafe(no_mangle)]
pub extern "C" fn hub_write_device_authentication(
    connect: u64,
    mode: u64,
    certificate: &[u8],
    thumbprint: &[u8],
    out: &mut [u8],
    size: &mut [u64],
) -> u32
    ensures value { result ≡ number_given (wrong_words (length size.old) mode connect) device_authentication
        (mode and connect and certificate.now and thumbprint.now and tt) out.old }
    ensures new_out { out.new ≡ bytes_given (wrong_words (length size.old) mode connect) device_authentication
        (mode and connect and certificate.now and thumbprint.now and tt) out.old }
    ensures new_size { size.new ≡ length_given (wrong_words (length size.old) mode connect) device_authentication
        (mode and connect and certificate.now and thumbprint.now and tt) out.old size.old }
{
    if wrong_words(size.len(), mode, connect) {
        return WRONG_BUFFER;
    }
    hand_length(
        write_device_authentication(connect as u8, mode as u16, certificate, thumbprint, out),
        size,
    )
}

// Writes the payload of an Authentication Done Request.
#[unsafe(no_mangle)]
pub extern "C" fn hub_write_done_request(mode: u64, out: &mut [u8], size: &mut [u64]) -> u32
    ensures value { result ≡ number_given (wrong_words (length size.old) mode 0) done_request (mode and tt) out.old }
    ensures new_out { out.new ≡ bytes_given (wrong_words (length size.old) mode 0) done_request (mode and tt) out.old }
    ensures new_size { size.new ≡ length_given (wrong_words (length size.old) mode 0) done_request (mode and tt) out.old
        size.old }
{
    if wrong_words(size.len(), mode, 0) {
        return WRONG_BUFFER;
    }
    hand_length(write_done_request(mode as u16, out), size)
}

// Writes the payload of an Authentication Done Response.
#[unsafe(no_mangle)]
pub extern "C" fn hub_write_done_response(
    mode: u64,
    status: u64,
    out: &mut [u8],
    size: &mut [u64],
) -> u32
    ensures value { result ≡ number_given (wrong_words (length size.old) mode status) done_response (mode and status and tt)
        out.old }
    ensures new_out { out.new ≡ bytes_given (wrong_words (length size.old) mode status) done_response (mode and status and tt)
        out.old }
    ensures new_size { size.new ≡ length_given (wrong_words (length size.old) mode status) done_response (mode and status and tt)
        out.old size.old }
{
    if wrong_words(size.len(), mode, status) {
        return WRONG_BUFFER;
    }
    hand_length(write_done_response(mode as u16, status as u8, out), size)
}
