// SPDX-License-Identifier: MPL-2.0
// The fields of a text: bytes in hexadecimal, `-` for none, a blank between two.
ghost use Rattle.std.specs.Prelude.{◌<◌, IfSome};

// What is left of a text: what is read of it is taken from its front.
#[derive(Drop)]
pub(crate) struct Text<'a> {
    pub rest: &'a [u8],
}

// A digit's value. A capital is none, so that std's `to_digit` is not used.
fn digit(b: u8) -> Option<u8>
    ensures { IfSome result (λ value. value < 16) }
{
    match b {
        b'0'..=b'9' => Some(b - b'0'),
        b'a'..=b'f' => Some(b - b'a' + 10),
        _ => None,
    }
}

impl<'a> Text<'a> {
    // The byte of two digits, if they stand at the front.
    fn byte(&mut self) -> Option<u8> {
        let [high, low, rest @ ..] = self.rest else {
            return None;
        };
        let byte = digit(*high)? * 16 + digit(*low)?;
        self.rest = rest;
        Some(byte)
    }

    // Skips what stands up to a mark, and the mark.
    #[tactic(auto, unfolding(intake::specs::Buffer::after_mark))]
    pub(crate) fn skip_past(&mut self, mark: u8) {
        let next = intake::after_mark(self.rest, 0, mark);
        self.rest = &self.rest[next..];
    }

    // Reads a field: its bytes, as far as there is room.
    pub(crate) fn field<'b>(&mut self, room: &'b mut [u8]) -> &'b mut [u8] {
        let mut n: usize = 0;
        for place in room.iter_mut() {
            let Some(byte) = self.byte() else {
                break;
            };
            *place = byte;
            n += 1;
        }
        self.skip_past(b' ');
        &mut room[..n]
    }

    // Reads a field as an array, with zeros behind it where it is shorter.
    pub(crate) fn array<const N: usize>(&mut self) -> [u8; N] {
        let mut bytes = [0; N];
        self.field(&mut bytes);
        bytes
    }

    // Whether the line at the front has no vector: a comment, nothing, or the end.
    pub(crate) fn has_no_vector(&self) -> bool {
        matches!(self.rest, [] | [b'#', ..] | [b'\n', ..])
    }
}
