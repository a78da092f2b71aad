//! Fields whose key has one byte, as nearly all have (Protocol Buffers encoding, "Message
//! Structure").
ghost use Rattle.std.specs.Prelude.{◌≡◌, ◌↔◌, ◌+◌, ◌%◌, ◌<◌, ◌≤◌, ◌⊎◌, length, slice_index, IfSome, IsSome};
ghost use Rattle.mvt_wire.specs.Varint.{EncodesVarint};
ghost use Rattle.mvt_wire.specs.Walk.{IsNextField};

use crate::field::{Body, Field};

/// The field at an offset whose key has one byte, and the offset after it. After the key is a varint
/// up to an offset `start`: the field's value or its length. None where the wire type is another, or
/// the bytes end before the payload does.
#[inline(always)]
pub fn field_after(
    bytes: &[u8],
    at: usize,
    key: u8,
    value: u64,
    start: usize,
) -> Option<(Field<'_>, usize)>
    requires within { at + 2 ≤ length bytes.now }
    requires key { slice_index bytes.now at ≡ key }
    requires leading { EncodesVarint bytes.now (at + 1) start value }
    requires numbered { 8 ≤ key }
    requires short { key < 128 }
    ensures field { IfSome result (IsNextField bytes.now at key) }
    ensures read { IsSome result ↔ (key % 8 ≡ 0)
        ⊎ ((key % 8 ≡ 2) × (start + value ≤ length bytes.now)) }
{
    let number = u32::from(key / 8);
    match key % 8 {
        0 => {
            let body = Body::Varint { value, at: at + 1 };
            Some((Field { number, at, body }, start))
        }
        2 => {
            if value > (bytes.len() - start) as u64 {
                return None;
            }
            let next = start + value as usize;
            let slice = &bytes[start..next];
            let body = Body::Bytes { from: start, slice };
            Some((Field { number, at, body }, next))
        }
        _ => None,
    }
}

/// The same for a field of four or eight bytes.
#[inline(always)]
pub fn fixed_after(bytes: &[u8], at: usize, key: u8) -> Option<(Field<'_>, usize)>
    requires within { at + 2 ≤ length bytes.now }
    requires key { slice_index bytes.now at ≡ key }
    requires numbered { 8 ≤ key }
    requires short { key < 128 }
    ensures field { IfSome result (IsNextField bytes.now at key) }
    ensures read { IsSome result ↔ ((key % 8 ≡ 1) × (at + 9 ≤ length bytes.now))
        ⊎ ((key % 8 ≡ 5) × (at + 5 ≤ length bytes.now)) }
{
    let number = u32::from(key / 8);
    match key % 8 {
        1 => {
            let body = Body::Fixed64(bytes.get(at + 1..at + 9)?);
            Some((Field { number, at, body }, at + 9))
        }
        5 => {
            let body = Body::Fixed32(bytes.get(at + 1..at + 5)?);
            Some((Field { number, at, body }, at + 5))
        }
        _ => None,
    }
}
