//! The rules between the parts of a tile (Mapbox Vector Tile Specification 2.1, sections 4.1, 4.2
//! and 4.4): the versions and names of its layers, and the tags of its features; and a further rule
//! on features.
ghost use Rattle.std.specs.Prelude.{◌≡◌, ℕ, length, None, IfOk, IfNone, IfSome, OnOk};
ghost use Rattle.mvt_fault.specs.Place.{IsLeast, place_of};
ghost use Rattle.mvt_fault.specs.declared.fault.Fault.{Fault};
ghost use Rattle.mvt_rules.specs.Tile.{FeatureRecord, TileRecord, IsTile};
ghost use Rattle.mvt_tile.specs.Calls.FeatureRules.{FindsInTile};
ghost use Rattle.mvt_tile.specs.Calls.PassedLayers.{EndsLayers, passed, PassesLayers};
ghost use Rattle.mvt_tile.specs.Calls.RuleFaults.{AreAfterTags};
ghost use Rattle.mvt_tile.specs.FreeFaults.{IsLeastOr};
ghost use Rattle.mvt_tile.specs.RuleFaults.{IsAfterTags, BreaksAnyRule, KeepsRules};
ghost use Rattle.mvt_tile.specs.Sound.{AreSoundTo};

mod faults;
mod feature_faults;
mod features;
mod key_marks;
mod layer_faults;
mod layer_names;
mod layer_rules;
mod layer_scan;
mod layers;
pub(crate) mod names;
mod polygons;
mod summary;
mod tags;

use crate::seen::Seen;
pub use faults::rule_faults;
pub(crate) use features::FeatureBuffer;
pub use features::FeatureRule;
pub(crate) use key_marks::KeyMarks;
pub(crate) use layer_rules::LayerRules;
use layer_scan::find_in_layer;
pub use layers::check_layers;
use mvt_fault::Fault;
use mvt_wire::field_number::LAYERS;
use mvt_wire::payload::payload_span;
use mvt_wire::{Fields, Part};
pub use polygons::polygon_fault;
use std::alloc::{AllocError, Global};
pub(crate) use summary::{LayerSummary, add_field, empty_summary};
pub use tags::check_tags;
pub(crate) use tags::{TagNeeds, next_tags};

/// The first fault of a tile by its rules, or None where it keeps them: its layers have version 2
/// and different names (Mapbox Vector Tile Specification 2.1, section 4.1), the tags of each
/// feature are pairs of a key and a value of its layer, no key twice (section 4.4), and each
/// feature keeps the further rule. The layers' faults come first; then the first feature that has a
/// fault decides, and its tags come before the further rule; of that the fault may be a free one,
/// where the rule has such. The bytes must have no wire fault
/// (`wire_fault`), and the rule's faults must come after those of the tags of their feature in the
/// order of faults. The bytes are read again: each layer at most once, or twice where a tag names a
/// key or a value that the layer doesn't have. No record of the tile is built. Its memory is for
/// the names of the layers, for one feature at a time, and for marks of keys. The only error is
/// that memory was refused.
pub fn rule_fault<R: FeatureRule>(
    alloc: Global,
    bytes: &[u8],
    rule: &mut R,
) -> Result<Option<Fault>, AllocError>
    requires tile { (tile : TileRecord) × IsTile bytes.now tile }
    requires after_tags { (feature_record : FeatureRecord) (layer_index feature_index : ℕ)
        (fault : Fault)
        → R.IsBroken feature_record layer_index feature_index fault
        → IsAfterTags layer_index feature_index (place_of fault) }
    ensures none { IfOk result (λ found. IfNone found ((tile : TileRecord) → IsTile bytes.now tile
        → KeepsRules R.IsKept tile)) }
    ensures found { IfOk result (λ found. IfSome found (λ fault. (tile : TileRecord)
        → IsTile bytes.now tile
        → IsLeastOr R.IsFree (BreaksAnyRule R.IsBroken tile) fault)) }
    ensures least { ((fault : Fault) → ¬ R.IsFree fault)
        → IfOk result (λ found. IfSome found (λ fault. (tile : TileRecord)
        → IsTile bytes.now tile
        → IsLeast (BreaksAnyRule R.IsBroken tile) fault)) }
{
    let mut found = None;
    rule_fault_after(alloc, bytes, Seen::nothing(), rule, &mut found)?;
    Ok(found)
}

/// The same where no feature in front of an offset has a fault but a missing key or value: those features
/// aren't looked at, but where a tag of their layer names a key or a value that it doesn't have. The fault is stored in
/// `found`, which is None before. (As an answer it would be copied at each call.)
pub fn rule_fault_after<R: FeatureRule>(
    alloc: Global,
    bytes: &[u8],
    seen: Seen,
    rule: &mut R,
    found: &mut Option<Fault>,
) -> Result<(), AllocError>
    requires nothing { found.old ≡ None }
    requires tile { (tile : TileRecord) × IsTile bytes.now tile }
    requires sound { AreSoundTo R.IsBroken R.IsKept bytes.now seen }
    requires after_tags { (feature_record : FeatureRecord) (layer_index feature_index : ℕ)
        (fault : Fault)
        → R.IsBroken feature_record layer_index feature_index fault
        → IsAfterTags layer_index feature_index (place_of fault) }
    ensures none { OnOk result (IfNone found.new ((tile : TileRecord) → IsTile bytes.now tile
        → KeepsRules R.IsKept tile)) }
    ensures found { OnOk result (IfSome found.new (λ fault. (tile : TileRecord)
        → IsTile bytes.now tile
        → IsLeastOr R.IsFree (BreaksAnyRule R.IsBroken tile) fault)) }
    ensures least { ((fault : Fault) → ¬ R.IsFree fault)
        → OnOk result (IfSome found.new (λ fault. (tile : TileRecord)
        → IsTile bytes.now tile
        → IsLeast (BreaksAnyRule R.IsBroken tile) fault)) }
{
    let mut layers = LayerRules::new(alloc);
    walk_layers(alloc, bytes, seen, rule, &mut layers, found)?;
    layers.find_fault(found);
    Ok(())
}

/// Walks over the layers of a tile, up to the first that has another version than 2, and stores the
/// first fault of their features in `found`, which is None before. It is right only where all
/// layers have version 2; elsewhere it isn't used. The features of layers after the first that has
/// a fault are not checked. The only error is that memory was refused.
fn walk_layers<'a, R: FeatureRule>(
    alloc: Global,
    bytes: &'a [u8],
    seen: Seen,
    rule: &mut R,
    layers: &mut LayerRules<'a>,
    found: &mut Option<Fault>,
) -> Result<(), AllocError>
    requires tile { (tile : TileRecord) × IsTile bytes.now tile }
    requires sound { AreSoundTo R.IsBroken R.IsKept bytes.now seen }
    requires begins { passed layers.old ≡ 0 }
    requires nothing { found.old ≡ None }
    requires passes { (tile : TileRecord) → PassesLayers layers.old tile }
    requires after_tags { AreAfterTags R.IsBroken }
    ensures ends { OnOk result ((tile : TileRecord) → IsTile bytes.now tile
        → EndsLayers layers.new tile) }
    ensures finds { OnOk result ((tile : TileRecord) → IsTile bytes.now tile
        → passed layers.new ≡ length tile.layers → FindsInTile R.IsFree R.IsBroken R.IsKept tile found.new) }
{
    let mut buffer = FeatureBuffer::new(alloc);
    let mut layer_index = 0;
    let mut fields = Fields::new(bytes, 0, bytes.len());
    'walk: while let Some(field) = fields.next_whole() {
        if field.number == LAYERS {
            let (from, to) = payload_span(field.body);
            let part = Part { bytes, from, to };
            let summary = find_in_layer(part, rule, layer_index, seen, &mut buffer, found)?;
            if !layers.note(summary.version, summary.name)? {
                return Ok(());
            }
            layer_index += 1;
        }
    }
    Ok(())
}
