// SPDX-License-Identifier: MPL-2.0
// The payloads of Discovery and Connect written, each at the start of its output. Mode, Result, Status and the type of a Device Authentication
// payload come as numbers: C may give any, and one that the format has not is refused with 14.
#![tactic(auto, unfolding(crate::specs::Written::written), using(crate::proofs::Payloads::writing))]

ghost use Rattle.std.specs.Prelude.{◌≡◌, not, eqb};
ghost use Rattle.std.proofs.lemmas.List.Edits.{sets};
ghost use Rattle.payloads.specs.Format.{one, fixed, ◌then◌, ◌and◌};
ghost use Rattle.payloads.specs.Types.{connect_number};
ghost use Rattle.payloads.specs.Shapes.{
  of_type,
  exchange,
  presence_request,
  connection_request,
  device_authentication,
  done_request,
  done_response,
  presence_response,
};
ghost use Rattle.writer.specs.Payload.{payload_written, payload_output, exchange_values, response_format, response_values, start_bytes};
ghost use Rattle.writer.specs.Written.{written, output};

use crate::put_refusal;
use octets::stores::{store_bytes, store8, store16, store32};
use payloads::reading::Request;
use payloads::types::{ConnectType, DiscoveryType, shows_certificate};
use payloads::{
    EXCHANGE_SIZE, FRAGMENT_SIZE, HASH_SIZE, KEY_SIZE, MOST_CERTIFICATE, MOST_NAME,
    MOST_THUMBPRINT, NAME_AT, NONCE_AT, PENDING, PRESENCE_SIZE, SALT_SIZE, X_AT, Y_AT,
};
use wire::refusals::{Refusal, Refused};

// Writes the payload of a Presence Request.
pub fn write_presence_request(out: &mut [u8]) -> Result<usize, Refused>
    ensures answer { result ≡ payload_written presence_request tt out.old }
    ensures bytes { out.new ≡ payload_output presence_request tt out.old }
{
    put_refusal(false, 1, out.len())?;
    store8(out, 0, DiscoveryType::PresenceRequest.number());
    Ok(1)
}

// How a Connect payload begins: mode, type, and the byte after it, which is a curve, a Result or a Status.
#[derive(Clone, Copy)]
struct Start {
    mode: u16,
    connect: ConnectType,
    code: u8,
}

impl Start {
    // Puts its four bytes.
    fn put(self, out: &mut [u8])
        ensures { out.new ≡ sets out.old 0 (start_bytes self) }
    {
        store16(out, 0, self.mode);
        store8(out, 2, self.connect.number());
        store8(out, 3, self.code);
    }

    // Writes a payload that is nothing more.
    fn write(self, fits: bool, out: &mut [u8]) -> Result<usize, Refused>
        ensures answer { result ≡ written (not fits) 4 out.old }
        ensures bytes { out.new ≡ output (not fits) 4 (start_bytes self) out.old }
    {
        put_refusal(!fits, 4, out.len())?;
        self.put(out);
        Ok(4)
    }

    // Writes a payload that goes on with the fields from HMACSize on.
    fn write_exchange(self, request: &Request, out: &mut [u8]) -> Result<usize, Refused>
        ensures answer { result ≡ payload_written (of_type (connect_number self.connect) (fixed one self.code then exchange))
            (exchange_values self.mode request.now) out.old }
        ensures bytes { out.new ≡ payload_output (of_type (connect_number self.connect) (fixed one self.code then exchange))
            (exchange_values self.mode request.now) out.old }
    {
        let Request { nonce, x, y } = request;
        put_refusal(2 < self.mode, EXCHANGE_SIZE, out.len())?;
        self.put(out);
        store16(out, 4, KEY_SIZE);
        store_bytes(out, NONCE_AT, nonce);
        store32(out, 14, FRAGMENT_SIZE);
        store16(out, 18, KEY_SIZE);
        store_bytes(out, X_AT, x);
        store16(out, 52, KEY_SIZE);
        store_bytes(out, Y_AT, y);
        Ok(EXCHANGE_SIZE)
    }
}

// Writes the payload of a Connection Request, on curve 0.
pub fn write_connection_request(
    mode: u16,
    request: Request,
    out: &mut [u8],
) -> Result<usize, Refused>
    ensures answer { result ≡ payload_written connection_request (exchange_values mode request) out.old }
    ensures bytes { out.new ≡ payload_output connection_request (exchange_values mode request) out.old }
{
    let start = Start {
        mode,
        connect: ConnectType::ConnectionRequest,
        code: 0,
    };
    start.write_exchange(&request, out)
}

// Writes the payload of a Connection Response; only one that is Pending carries nonce, X and Y.
pub fn write_connection_response(
    mode: u16,
    res: u8,
    request: Request,
    out: &mut [u8],
) -> Result<usize, Refused>
    ensures answer { result ≡ payload_written (response_format (eqb res 1)) (response_values (eqb res 1) mode res request)
        out.old }
    ensures bytes { out.new ≡ payload_output (response_format (eqb res 1)) (response_values (eqb res 1) mode res request)
        out.old }
{
    let start = Start {
        mode,
        connect: ConnectType::ConnectionResponse,
        code: res,
    };
    if res == PENDING {
        return start.write_exchange(&request, out);
    }
    start.write((mode <= 2) & (res <= 3), out)
}

// Writes the payload of an Authentication Done Request.
pub fn write_done_request(mode: u16, out: &mut [u8]) -> Result<usize, Refused>
    ensures answer { result ≡ payload_written done_request (mode and tt) out.old }
    ensures bytes { out.new ≡ payload_output done_request (mode and tt) out.old }
{
    put_refusal(2 < mode, 3, out.len())?;
    store16(out, 0, mode);
    store8(out, 2, ConnectType::DoneRequest.number());
    Ok(3)
}

// Writes the payload of an Authentication Done Response.
pub fn write_done_response(mode: u16, status: u8, out: &mut [u8]) -> Result<usize, Refused>
    ensures answer { result ≡ payload_written done_response (mode and status and tt) out.old }
    ensures bytes { out.new ≡ payload_output done_response (mode and status and tt) out.old }
{
    let start = Start {
        mode,
        connect: ConnectType::DoneResponse,
        code: status,
    };
    start.write((mode <= 2) & (status <= 4), out)
}

// Writes the payload of a Device Authentication Request or Response, by its type.
#[tactic(auto, unfolding(crate::specs::Written::written, crate::specs::Written::put_refusal), using(crate::proofs::Payloads::writing))]
pub fn write_device_authentication(
    connect: u8,
    mode: u16,
    certificate: &[u8],
    thumbprint: &[u8],
    out: &mut [u8],
) -> Result<usize, Refused>
    ensures answer { result ≡ payload_written device_authentication
        (mode and connect and certificate.now and thumbprint.now and tt) out.old }
    ensures bytes { out.new ≡ payload_output device_authentication
        (mode and connect and certificate.now and thumbprint.now and tt) out.old }
{
    let c = certificate.len();
    let t = thumbprint.len();
    let fits = (mode <= 2)
        & shows_certificate(connect)
        & (1 <= c)
        & (c <= (MOST_CERTIFICATE as usize))
        & (t <= (MOST_THUMBPRINT as usize));
    Refusal::WrongPayload.when(!fits)?;
    let size = 7 + c + t;
    Refusal::NoRoom.when(out.len() < size)?;
    store16(out, 0, mode);
    store8(out, 2, connect);
    store16(out, 3, c as u16);
    store_bytes(out, 5, certificate);
    store16(out, 5 + c as u32, t as u16);
    store_bytes(out, 5 + c + 2, thumbprint);
    Ok(size)
}

// Writes the payload of a Presence Response. A salt or a hash of another size than 4 is refused with 14.
#[tactic(auto, unfolding(crate::specs::Written::written, crate::specs::Written::put_refusal), using(crate::proofs::Payloads::writing))]
pub fn write_presence_response(
    mode: u16,
    device: u16,
    name: &[u8],
    salt: &[u8],
    hash: &[u8],
    out: &mut [u8],
) -> Result<usize, Refused>
    ensures answer { result ≡ payload_written presence_response
        (mode and device and name.now and salt.now and hash.now and tt) out.old }
    ensures bytes { out.new ≡ payload_output presence_response
        (mode and device and name.now and salt.now and hash.now and tt) out.old }
{
    let n = name.len();
    let fits = (mode <= 2)
        & (n <= (MOST_NAME as usize))
        & (salt.len() == SALT_SIZE)
        & (hash.len() == HASH_SIZE);
    Refusal::WrongPayload.when(!fits)?;
    let size = PRESENCE_SIZE + n;
    Refusal::NoRoom.when(out.len() < size)?;
    store8(out, 0, DiscoveryType::PresenceResponse.number());
    store16(out, 1, mode);
    store16(out, 3, device);
    store16(out, 5, n as u16);
    store_bytes(out, NAME_AT, name);
    store_bytes(out, NAME_AT + n, salt);
    store_bytes(out, NAME_AT + n + SALT_SIZE, hash);
    Ok(size)
}
