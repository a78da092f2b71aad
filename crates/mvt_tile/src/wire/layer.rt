//! The faults of a layer and of the messages in it.
ghost use Rattle.std.specs.Prelude.{◌≡◌, IfNone, IfSome, MatchOption, None};
ghost use Rattle.mvt_wire.specs.Embedded.{span_in};
ghost use Rattle.mvt_tile.specs.Calls.Embedded.{IsInnerFault};
ghost use Rattle.mvt_tile.specs.Calls.Passed.{IsFaultlessAfter, IsFirstAfter};

use crate::wire::message::MessageCheck;
use crate::wire::scan::FieldScan;
use mvt_fault::{Fault, wire_fault_in};
use mvt_wire::field_number::{FEATURES, VALUES};
use mvt_wire::{EmbeddedScan, Message, Part, Scope, WireCause};

/// The first fault of the layer with an ordinal, which a part of the bytes holds: that of its own
/// fields, or else of its values, or else of its features (Mapbox Vector Tile Specification 2.1,
/// section 4.1). The layer is walked once, but for the values and features in front of an offset, if
/// these have none.
pub(crate) fn layer_fault(part: Part<'_>, layer: usize, passed: usize) -> Option<Fault>
    ensures { MatchOption result
        (IsFaultlessAfter passed part.entry.bytes.now layer (span_in part.entry))
        (λ fault. IsFirstAfter passed part.entry.bytes.now fault layer (span_in part.entry)) }
{
    let front = &part.bytes[..part.to];
    let mut own = FieldScan::new();
    let of_values = MessageCheck {
        message: Message::Value,
        passed,
    };
    let of_features = MessageCheck {
        message: Message::Feature,
        passed,
    };
    let mut values = EmbeddedScan::new(of_values, VALUES);
    let mut features = EmbeddedScan::new(of_features, FEATURES);
    let mut at = part.from;
    'walk: loop {
        let (field, next) = match own.pass_next::<1>(Message::Layer, front, at) {
            Ok(Some(read)) => read,
            Ok(None) => break,
            Err(cause) => return Some(wire_fault_in(Scope::Layer(layer), cause)),
        };
        values.pass(part.bytes, &field);
        features.pass(part.bytes, &field);
        at = next;
    }
    match own.end_fault(Message::Layer, part.to) {
        Some(cause) => Some(wire_fault_in(Scope::Layer(layer), cause)),
        None => inner_fault(layer, values.first, features.first),
    }
}

/// The fault that was found first in the values of a layer, or else in its features. Each has its
/// ordinal in the layer.
fn inner_fault(
    layer: usize,
    of_value: Option<(usize, WireCause)>,
    of_feature: Option<(usize, WireCause)>,
) -> Option<Fault>
    ensures none { IfNone result ((of_value ≡ None) × (of_feature ≡ None)) }
    ensures first { IfSome result (IsInnerFault layer of_value of_feature) }
{
    if let Some((value, cause)) = of_value {
        return Some(wire_fault_in(Scope::Value(layer, value), cause));
    }
    match of_feature {
        Some((feature, cause)) => Some(wire_fault_in(Scope::Feature(layer, feature), cause)),
        None => None,
    }
}
