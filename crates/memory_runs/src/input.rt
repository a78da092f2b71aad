//! What a call is made on: the words of the command line and the bytes of standard input, both in
//! arrays.
use crate::stop::Stop;
use std::io::Read;
use std::rt::Env;

/// How many bytes of standard input there is room for.
pub const ROOM: usize = 2048;

/// The word at a place of the command line.
pub(crate) fn word<'a, R: Env>(rt: &R, at: usize, room: &'a mut [u8]) -> Result<&'a str, Stop> {
    let Ok(length) = rt.arg(at, room) else {
        return Err(Stop::NoCall);
    };
    text(room.get(..length))
}

/// The number at a place of the command line.
pub(crate) fn number<R: Env>(rt: &R, at: usize) -> Result<usize, Stop> {
    let mut room = [0u8; 16];
    match word(rt, at, &mut room)?.parse() {
        Ok(number) => Ok(number),
        Err(_) => Err(Stop::NoCall),
    }
}

/// All bytes of standard input.
pub(crate) fn read_input<'a, R: Input>(rt: &R, room: &'a mut [u8]) -> Result<&'a [u8], Stop> {
    let mut reader = rt.reader();
    let mut length = 0_usize;
    for _ in 0..room.len() {
        let Some(left) = room.get_mut(length..) else {
            break;
        };
        match reader.read(left) {
            Ok(n) => length = length.saturating_add(n),
            Err(_) => return Err(Stop::NoCall),
        }
    }
    match room.get(..length) {
        Some(bytes) => Ok(bytes),
        None => Err(Stop::NoCall),
    }
}

/// The numbers that a text spells in decimal, with spaces between them.
pub(crate) fn numbers<'a>(bytes: &[u8], room: &'a mut [u32]) -> Result<&'a [u32], Stop> {
    let mut count = 0_usize;
    for word in text(Some(bytes))?.split_whitespace() {
        let (Some(slot), Ok(number)) = (room.get_mut(count), word.parse()) else {
            return Err(Stop::NoCall);
        };
        *slot = number;
        count = count.saturating_add(1);
    }
    match room.get(..count) {
        Some(numbers) => Ok(numbers),
        None => Err(Stop::NoCall),
    }
}

/// The text that bytes are, where they are there and are one.
fn text(bytes: Option<&[u8]>) -> Result<&str, Stop> {
    match bytes {
        Some(bytes) => match str::from_utf8(bytes) {
            Ok(text) => Ok(text),
            Err(_) => Err(Stop::NoCall),
        },
        None => Err(Stop::NoCall),
    }
}
