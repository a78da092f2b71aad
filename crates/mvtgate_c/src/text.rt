//! A text that is written into memory of the caller's.
ghost use Rattle.std.specs.Prelude.{◌≡◌, ◌≤◌, ◌++◌, ◌↔◌, length, drop, IsTrue, IsFalse};

/// Writes the bytes at the front of the room, and their number. Where the room is too small nothing
/// is written but that number, and the result is false.
pub(crate) fn put_text(bytes: &[u8], room: &mut [u8], text_length: &mut usize) -> bool
    ensures fits { IsTrue result ↔ (length bytes.now ≤ length room.old) }
    ensures reported { text_length.new ≡ length bytes.now }
    ensures written { IsTrue result → room.new ≡ bytes.now ++ drop (length bytes.now) room.old }
    ensures untouched { IsFalse result → room.new ≡ room.old }
{
    let count = bytes.len();
    *text_length = count;
    if count > room.len() {
        return false;
    }
    room[..count].copy_from_slice(bytes);
    true
}
