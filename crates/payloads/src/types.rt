// SPDX-License-Identifier: MPL-2.0
// The types of the payloads of Discovery and Connect, each with its number on the wire.
ghost use Rattle.std.specs.Prelude.{◌≡◌};
ghost use Rattle.payloads.specs.Shapes.{either};
ghost use Rattle.payloads.specs.Types.{discovery_number, connect_number, ConnectOf};

// A type of Discovery.
#[derive(Clone, Copy, PartialEq, Eq)]
pub enum DiscoveryType {
    PresenceRequest = 0,
    PresenceResponse = 1,
}

impl DiscoveryType {
    // Its number.
    pub fn number(self) -> u8
        ensures { result ≡ discovery_number self }
    {
        self as u8
    }
}

// A type of Connect.
#[derive(Clone, Copy, PartialEq, Eq)]
pub enum ConnectType {
    ConnectionRequest = 0,
    ConnectionResponse = 1,
    // Device Authentication Request.
    DeviceRequest = 2,
    // Device Authentication Response.
    DeviceResponse = 3,
    // Authentication Done Request.
    DoneRequest = 6,
    // Authentication Done Response.
    DoneResponse = 7,
}

impl ConnectType {
    // Its number.
    pub fn number(self) -> u8
        ensures { result ≡ connect_number self }
    {
        self as u8
    }
}

// A number that no type has.
#[derive(Clone, Copy, PartialEq, Eq)]
pub struct UnknownType(pub u8);

impl TryFrom<u8> for ConnectType {
    type Error = UnknownType;

    ghost try_from_gives = { ConnectOf };

    // The type that has this number.
    fn try_from(number: u8) -> Result<Self, UnknownType> {
        match number {
            0 => Ok(ConnectType::ConnectionRequest),
            1 => Ok(ConnectType::ConnectionResponse),
            2 => Ok(ConnectType::DeviceRequest),
            3 => Ok(ConnectType::DeviceResponse),
            6 => Ok(ConnectType::DoneRequest),
            7 => Ok(ConnectType::DoneResponse),
            _ => Err(UnknownType(number)),
        }
    }
}

// Whether this is the number of a Device Authentication Request or Response: only these carry a certificate and a thumbprint.
pub fn shows_certificate(connect: u8) -> bool
    ensures { result ≡ either 2 3 connect }
{
    matches!(
        ConnectType::try_from(connect),
        Ok(ConnectType::DeviceRequest | ConnectType::DeviceResponse)
    )
}
