ghost use Rattle.std.specs.Prelude.{◌≡◌, ◌<◌, ◌≤◌, ◌^◌, ◌↔◌, IsTrue, length, IfOk, IfErr};
ghost use Rattle.mvt_wire.specs.Field.{FieldDefect};
ghost use Rattle.mvt_wire.specs.Calls.Key.{IsKeyOf};

use crate::cause::{WireCause, WireCode};
use crate::varint::read_varint;

/// The wire types that are read. Groups (3 and 4), 6 and 7 are refused.
#[derive(Clone, Copy)]
pub(crate) enum WireType {
    Varint,
    Fixed64,
    Bytes,
    Fixed32,
}

/// A field key that was read: its offset, the field's number, the wire type, and the offset after
/// the key.
#[derive(Clone, Copy)]
pub(crate) struct Key {
    pub(crate) at: usize,
    pub(crate) number: u32,
    pub(crate) wire_type: WireType,
    pub(crate) end: usize,
}

/// The field key at an offset (Protocol Buffers encoding, "Message Structure").
#[inline(always)]
pub(crate) fn read_key(bytes: &[u8], at: usize) -> Result<Key, WireCause>
    requires { at ≤ length bytes.now }
    ensures key { IfOk result (IsKeyOf bytes.now) }
    ensures here { IfOk result (λ key. key.at ≡ at) }
    ensures defect { IfErr result (λ cause. FieldDefect bytes.now at cause) }
{
    let (key, end) = match read_varint(bytes, at) {
        Ok(read) => read,
        Err(code) => return Err(WireCause { code, at, field: 0 }),
    };
    if !is_key(key) {
        return Err(WireCause {
            code: WireCode::BadNumber,
            at,
            field: 0,
        });
    }
    let number = (key / 8) as u32;
    let wire_type = match key % 8 {
        0 => WireType::Varint,
        1 => WireType::Fixed64,
        2 => WireType::Bytes,
        5 => WireType::Fixed32,
        _ => {
            return Err(WireCause {
                code: WireCode::BadWireType,
                at,
                field: number,
            });
        }
    };
    Ok(Key {
        at,
        number,
        wire_type,
        end,
    })
}

/// Whether a number is a field key: below 2^32, and with a field number of at least 1.
#[inline(always)]
fn is_key(number: u64) -> bool
    ensures { IsTrue result ↔ (8 ≤ number) × (number < 2 ^ 32) }
{
    number >= 8 && number < 1 << 32
}
