// SPDX-License-Identifier: MPL-2.0
// The arguments: KEYS F [VERDICT].
use intake::read_full;
use std::env::FillError;
use std::fmt;
use std::fs::File;
use std::rt::{Env, Files};

// The key bytes of a connection.
const KEYS: usize = 64;

// The largest fragment size.
pub(crate) const LARGEST: usize = 16384;

// What the command line asks for. The verdict is a number, as a step takes it.
#[derive(Clone, Copy)]
pub(crate) struct Asked {
    pub size: usize,
    pub verdict: u8,
    pub keys: [u8; KEYS],
}

// What is wrong with a command line.
#[derive(Clone, Copy)]
pub(crate) enum Wrong {
    Count,
    Verdict,
    KeysUnread,
    KeysLength,
    Size,
}

impl fmt::Display for Wrong {
    fn fmt<W: fmt::Write>(&self, f: &mut fmt::Formatter<W>) -> fmt::Result {
        f.write_str(match self {
            Wrong::Count => "2 or 3 arguments are wanted",
            Wrong::Verdict => "VERDICT is neither 0 nor 1",
            Wrong::KeysUnread => "KEYS cannot be read",
            Wrong::KeysLength => "KEYS has not 64 bytes",
            Wrong::Size => "F is no number from 1 to 16384",
        })
    }
}

// Whether an argument was given.
fn is_given(rt: &impl Env, i: usize) -> bool {
    let mut text = [0u8; 1];
    !matches!(rt.arg(i, &mut text), Err(FillError::NotPresent))
}

// The verdict, argument 3, which is 1 where it is not given.
fn verdict_asked(rt: &impl Env) -> Result<u8, Wrong> {
    let mut text = [0u8; 2];
    match rt.arg(3, &mut text) {
        Err(FillError::NotPresent) => Ok(1),
        Ok(1) if text[0] == b'0' => Ok(0),
        Ok(1) if text[0] == b'1' => Ok(1),
        _ => Err(Wrong::Verdict),
    }
}

// A path as the text that files are named by. Bytes that are no text give the empty path, which names no file.
fn text(path: &[u8]) -> &str {
    str::from_utf8(path).unwrap_or("")
}

// The bytes of the key file, argument 1. One more than they are is asked for at once, since there are sources that drop what a read leaves.
fn keys_asked(rt: &(impl Env + Files)) -> Result<[u8; KEYS], Wrong> {
    let mut path = [0u8; 4096];
    let length = rt.arg(1, &mut path).unwrap_or(0);
    let mut file = File::open(rt, text(&path[..length])).map_err(|_| Wrong::KeysUnread)?;
    let mut read = [0u8; KEYS + 1];
    if read_full(&mut file, &mut read) != KEYS {
        return Err(Wrong::KeysLength);
    }
    let mut keys = [0u8; KEYS];
    keys.copy_from_slice(&read[..KEYS]);
    Ok(keys)
}

// The number that a text of digits says, 0 where it has none; none where another byte stands in it or it does not fit.
fn number(text: &[u8]) -> Option<u32> {
    text.iter().try_fold(0u32, |value, byte| {
        let digit = char::from(*byte).to_digit(10)?;
        value.checked_mul(10)?.checked_add(digit)
    })
}

// The fragment size, argument 2.
fn size_asked(rt: &impl Env) -> Result<usize, Wrong> {
    let mut text = [0u8; 16];
    let length = rt.arg(2, &mut text).unwrap_or(0);
    let size = number(&text[..length]).ok_or(Wrong::Size)? as usize;
    if (1..=LARGEST).contains(&size) {
        Ok(size)
    } else {
        Err(Wrong::Size)
    }
}

// Takes the arguments apart.
pub(crate) fn read_arguments(rt: &(impl Env + Files)) -> Result<Asked, Wrong> {
    if !is_given(rt, 2) || is_given(rt, 4) {
        return Err(Wrong::Count);
    }
    let verdict = verdict_asked(rt)?;
    let keys = keys_asked(rt)?;
    let size = size_asked(rt)?;
    Ok(Asked {
        size,
        verdict,
        keys,
    })
}
