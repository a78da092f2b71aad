//! A value of a layer that is as writers make it (Mapbox Vector Tile Specification 2.1, section
//! 4.4).
ghost use Rattle.std.specs.Prelude.{IsTrue, ℕ};
ghost use Rattle.mvt_wire.specs.Embedded.{span_in};
ghost use Rattle.mvt_wire.specs.declared.schema.Message.TheVariants as messages;
ghost use Rattle.mvt_tile.specs.Calls.Embedded.{HasNone};

use crate::wire::scan::FieldScan;
use mvt_wire::{Message, Part};

/// Whether the value that a part of the bytes holds is one field without fault. False may be said of
/// any value.
#[inline(always)]
pub(crate) fn is_one_field(part: Part<'_>) -> bool
    ensures { IsTrue result → (ordinal : ℕ)
        → HasNone messages.Value part.entry.bytes.now ordinal (span_in part.entry) }
{
    // (in all bytes: a long varint is read without a loop where more bytes come after it)
    let mut scan = FieldScan::new();
    let Some((_, next)) = scan.pass_usual::<6>(Message::Value, part.bytes, part.from) else {
        return false;
    };
    if next != part.to || scan.end_fault(Message::Value, part.to).is_some() {
        return false;
    }
    true
}
