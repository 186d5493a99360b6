// SPDX-License-Identifier: MPL-2.0
// The payload of a message that was read: a part of the message if it was plain, of the working buffer if it was sealed.
ghost use Rattle.std.specs.Prelude.{◌≡◌, Ok};
ghost use Rattle.message.specs.Handed.{payload};

use super::reading::FoundMessage;
use octets::bounds::lacks;
use wire::refusals::Refused;

// The part where a payload was found. No number is trusted: what does not fit gives the empty part at the message's start.
fn part<'a>(message: &'a [u8], working: &'a [u8], found: FoundMessage) -> &'a [u8]
    ensures { result.now ≡ payload message.now working.now (Ok found) }
{
    let from = found.from;
    let size = found.size;
    if found.sealed {
        if lacks(working.len(), from, size) {
            return &message[0..0];
        }
        let end = from + size;
        return &working[from..end];
    }
    if lacks(message.len(), from, size) {
        return &message[0..0];
    }
    let end = from + size;
    &message[from..end]
}

// Message and working buffer are lent, and a part of one of them is handed out, by what the reader answered. On a refusal that part is empty, at
// the message's start (`PayloadHanded`).
pub fn payload<'a>(
    message: &'a [u8],
    working: &'a [u8],
    read: Result<FoundMessage, Refused>,
) -> &'a [u8]
    ensures { result.now ≡ payload message.now working.now read }
{
    match read {
        Ok(found) => part(message, working, found),
        Err(_) => &message[0..0],
    }
}
