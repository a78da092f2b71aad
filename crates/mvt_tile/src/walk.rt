//! One walk over a tile that says of most valid ones that they are (Mapbox Vector Tile
//! Specification 2.1, section 4), and of others how far nothing is wrong.
ghost use Rattle.std.specs.Prelude.{◌≡◌, ◌≤◌, IfOk, IsFalse, IsTrue, OnOk, length};
ghost use Rattle.mvt_wire.specs.Embedded.{span_in};
ghost use Rattle.mvt_rules.specs.Tile.{FeatureRecord, IsTile, TileRecord};
ghost use Rattle.mvt_rules.specs.WireFault.{WireFault};
ghost use Rattle.mvt_wire.specs.declared.cause.WireCause.{WireCause};
ghost use Rattle.mvt_wire.specs.declared.scope.Scope.{Scope};
ghost use Rattle.mvt_tile.specs.Passed.{IsPassed};
ghost use Rattle.mvt_tile.specs.Calls.OneWalk.{EndsAtLayer, IsRightTile, PassesAsNext};
ghost use Rattle.mvt_tile.specs.Calls.PassedLayers.{passed, PassesLayers};
ghost use Rattle.mvt_tile.specs.RuleFaults.{KeepsRules};
ghost use Rattle.mvt_tile.specs.Sound.{AreSoundTo, tells_none};

mod feature;
mod layer;
mod tags;
mod value;

use crate::rules::{FeatureBuffer, LayerRules, TagNeeds};
use crate::seen::Seen;
use crate::wire::scan::FieldScan;
pub use feature::FeatureTest;
use layer::walk_layer;
use mvt_wire::field_number::LAYERS;
use mvt_wire::payload::payload_span;
use mvt_wire::{Message, Part};
use std::alloc::{AllocError, Global};

/// Whether the bytes are known, after one walk over them, to be a tile without wire fault
/// (`wire_fault`) that keeps the rules (`rule_fault`), of which each feature keeps a further one. It
/// ends at the first part that doesn't look as writers make it, and then says no more than how far it
/// has come: false may be said of any bytes. No layer, value or feature that ends in front of the
/// offset `seen.to` has a wire fault then, and no feature there another one but a missing key or value;
/// versions and names of layers are left open. Its memory is for the names of the layers and for marks of keys. The only
/// error is that memory was refused.
pub fn passes_one_walk<T: FeatureTest>(
    alloc: Global,
    bytes: &[u8],
    test: &mut T,
    seen: &mut Seen,
) -> Result<bool, AllocError>
    ensures wire { IfOk result (λ passes. IsTrue passes → (scope : Scope) (cause : WireCause)
        → ¬ WireFault bytes.now scope cause) }
    ensures rules { IfOk result (λ passes. IsTrue passes → (tile : TileRecord)
        → IsTile bytes.now tile → KeepsRules (T.IsKept test.new) tile) }
    ensures passed { IfOk result (λ passes. IsFalse passes → IsPassed bytes.now seen.new.to) }
    ensures sound { IfOk result (λ passes. IsFalse passes
        → AreSoundTo tells_none (T.IsKept test.new) bytes.now seen.new) }
{
    let mut layers = LayerRules::new(alloc);
    let mut buffer = FeatureBuffer::new(alloc);
    if !walk_layers(bytes, test, seen, &mut layers, &mut buffer)? {
        return Ok(false);
    }
    Ok(!layers.has_fault())
}

/// The same before the names of the layers are compared, which `layers` keeps.
#[inline(always)]
fn walk_layers<'a, T: FeatureTest>(
    bytes: &'a [u8],
    test: &mut T,
    seen: &mut Seen,
    layers: &mut LayerRules<'a>,
    buffer: &mut FeatureBuffer,
) -> Result<bool, AllocError>
    requires none { passed layers.old ≡ 0 }
    requires passes { (tile : TileRecord) → PassesLayers layers.old tile }
    ensures right { IfOk result (λ passes. IsTrue passes
        → IsRightTile (T.IsKept test.new) bytes.now layers.new) }
    ensures passed { OnOk result (IsPassed bytes.now seen.new.to) }
    ensures sound { OnOk result (AreSoundTo tells_none (T.IsKept test.new) bytes.now seen.new) }
{
    let mut own = FieldScan::new();
    let mut at = 0;
    'walk: while let Some((field, next)) = own.pass_usual::<5>(Message::Tile, bytes, at) {
        if field.number == LAYERS {
            let (from, to) = payload_span(field.body);
            let part = Part { bytes, from, to };
            if !passes_layer(part, next, test, seen, layers, buffer)? {
                return Ok(false);
            }
        }
        at = next;
    }
    *seen = seen_to(at + 1);
    if at < bytes.len() || own.end_fault(Message::Tile, bytes.len()).is_some() {
        return Ok(false);
    }
    Ok(true)
}

/// Whether the layer that a part of the bytes holds, and whose field ends at an offset, is known to be
/// right, and has version 2: then it is kept as the next one.
#[inline(always)]
fn passes_layer<'a, T: FeatureTest>(
    part: Part<'a>,
    next: usize,
    test: &mut T,
    seen: &mut Seen,
    layers: &mut LayerRules<'a>,
    buffer: &mut FeatureBuffer,
) -> Result<bool, AllocError>
    requires { next ≤ length part.bytes.now }
    ensures passes { IfOk result (λ passes. IsTrue passes → PassesAsNext (T.IsKept test.new)
        part.entry.bytes.now (span_in part.entry) layers.old layers.new) }
    ensures ends { IfOk result (λ passes. IsFalse passes → EndsAtLayer (T.IsKept test.new)
        part.entry.bytes.now (span_in part.entry) next seen.new) }
    ensures still { OnOk result ((feature_record : FeatureRecord)
        → T.IsKept test.old feature_record → T.IsKept test.new feature_record) }
{
    let Some(summary) = walk_layer(part, test, buffer, seen)? else {
        return Ok(false);
    };
    if layers.note(summary.version, summary.name)? {
        return Ok(true);
    }
    *seen = seen_to(next + 1);
    Ok(false)
}

/// Nothing is wrong in front of an offset, at which is no layer.
fn seen_to(to: usize) -> Seen
    ensures { result.to ≡ to }
{
    Seen {
        to,
        needs: TagNeeds::none(),
    }
}
