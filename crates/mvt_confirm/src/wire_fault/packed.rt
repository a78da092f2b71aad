//! The faults in a packed list of numbers of 32 bits (Protocol Buffers encoding, "Packed Repeated
//! Fields").
ghost use Rattle.std.specs.Prelude.{◌≤◌, ◌↔◌, length, IsTrue};
ghost use Rattle.mvt_wire.specs.Number.{PackedFault};
ghost use Rattle.mvt_confirm.specs.Calls.Packed.{IsBadAt};

use mvt_wire::{WireCause, WireCode, read_varint};

/// Whether a packed list has this fault. The list is the payload of a field with a number, and
/// begins at the offset `from`; it is walked up to the fault's place.
pub(crate) fn has_packed_fault(part: &[u8], from: usize, number: u32, cause: WireCause) -> bool
    ensures { IsTrue result ↔ PackedFault from part.now number cause }
{
    if cause.field != number || cause.at < from {
        return false;
    }
    let place = cause.at - from;
    let mut at = 0;
    'walk: while at < place && at < part.len() {
        match read_varint(part, at) {
            Ok((_number, next)) => at = next,
            Err(_code) => return false,
        }
    }
    at == place && is_bad_at(part, at, cause.code)
}

/// Whether a number that isn't whole, or has more than 32 bits, is at a place of a list.
fn is_bad_at(part: &[u8], at: usize, code: WireCode) -> bool
    requires { at ≤ length part.now }
    ensures { IsTrue result ↔ IsBadAt part.now at code }
{
    match read_varint(part, at) {
        Ok((number, _next)) => code == WireCode::OutOfRange && number >= 1 << 32,
        Err(defect) => at < part.len() && code == defect,
    }
}
