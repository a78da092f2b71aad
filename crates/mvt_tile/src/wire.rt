//! The first wire fault of a tile.
ghost use Rattle.std.specs.Prelude.{◌<◌, IfNone, IfSome};
ghost use Rattle.mvt_rules.specs.WireFault.{WireFault};
ghost use Rattle.mvt_wire.specs.declared.cause.WireCause.{WireCause};
ghost use Rattle.mvt_wire.specs.declared.scope.Scope.{Scope};
ghost use Rattle.mvt_fault.specs.Place.{IsLeast};
ghost use Rattle.mvt_rules.specs.Parts.TrueFaults.{IsWireFault};
ghost use Rattle.mvt_tile.specs.Passed.{IsPassed};

mod field;
mod layer;
mod message;
pub(crate) mod scan;
pub(crate) mod usual;

use crate::wire::layer::layer_fault;
use crate::wire::scan::FieldScan;
use mvt_fault::{Fault, wire_fault_in};
use mvt_wire::field_number::LAYERS;
use mvt_wire::{EmbeddedCheck, EmbeddedScan, Message, Part, Scope};

/// The first wire fault of the bytes of a tile, or None where there is none: a fault of the wire
/// encoding (Protocol Buffers encoding, "Message Structure"), or a field that the tile's schema
/// refuses (Mapbox Vector Tile Specification 2.1, section 4).
///
/// The tile's own fields come first; then layer by layer the layer's fields, its values and its
/// features. Within a message the fault with the least offset comes first, then that with the least
/// code, then that with the least field number. Offsets are in bytes from the tile's first byte.
/// The bytes of each message are walked once, and no memory is taken.
pub fn wire_fault(bytes: &[u8]) -> Option<Fault>
    ensures none { IfNone result ((scope : Scope) (cause : WireCause)
        → ¬ WireFault bytes.now scope cause) }
    ensures least { IfSome result (IsLeast (IsWireFault bytes.now)) }
{
    wire_fault_after(bytes, 0)
}

/// The same where no wire fault is in front of an offset: the layers, values and features there
/// aren't walked again.
pub fn wire_fault_after(bytes: &[u8], passed: usize) -> Option<Fault>
    requires { IsPassed bytes.now passed }
    ensures none { IfNone result ((scope : Scope) (cause : WireCause)
        → ¬ WireFault bytes.now scope cause) }
    ensures least { IfSome result (IsLeast (IsWireFault bytes.now)) }
{
    let mut own = FieldScan::new();
    let mut layers = EmbeddedScan::new(Layers { passed }, LAYERS);
    let mut at = 0;
    'walk: loop {
        let (field, next) = match own.pass_next::<0>(Message::Tile, bytes, at) {
            Ok(Some(read)) => read,
            Ok(None) => break,
            Err(cause) => return Some(wire_fault_in(Scope::Tile, cause)),
        };
        layers.pass(bytes, &field);
        at = next;
    }
    if let Some(cause) = own.end_fault(Message::Tile, bytes.len()) {
        return Some(wire_fault_in(Scope::Tile, cause));
    }
    layers.first
}

/// The first fault of a layer, where no wire fault is in front of an offset.
#[derive(Drop)]
struct Layers {
    passed: usize,
}

impl EmbeddedCheck for Layers {
    ghost use Rattle.mvt_tile.specs.Calls.Passed.{IsFaultlessAfter, IsFirstAfter};

    type Found = Fault;

    ghost IsClean = { λ check. IsFaultlessAfter check.passed };

    ghost IsFound = { λ check. IsFirstAfter check.passed };

    fn check(&self, part: Part<'_>, ordinal: usize) -> Option<Fault> {
        if part.to < self.passed {
            return None;
        }
        layer_fault(part, ordinal, self.passed)
    }
}
