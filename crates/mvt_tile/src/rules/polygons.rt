//! A further rule on the features of polygons, where a tile is known to keep all others (Mapbox Vector
//! Tile Specification 2.1, section 4.3.4.4).
ghost use Rattle.std.specs.Prelude.{◌≡◌, ℕ, None, IfNone, IfSome, OnOk};
ghost use Rattle.mvt_fault.specs.Place.{IsLeast, place_of};
ghost use Rattle.mvt_fault.specs.declared.fault.Fault.{Fault};
ghost use Rattle.mvt_rules.specs.Tile.{FeatureRecord, IsFeature, IsLayer, IsTile, LayerRecord, TileRecord};
ghost use Rattle.mvt_wire.specs.Embedded.{Holds};
ghost use Rattle.mvt_tile.specs.Calls.FeatureRules.{AreSoundButPolygons, FindsInLayer};
ghost use Rattle.mvt_tile.specs.Calls.RuleFaults.{AreAfterTags};
ghost use Rattle.mvt_tile.specs.FreeFaults.{IsLeastOr};
ghost use Rattle.mvt_tile.specs.RuleFaults.{BreaksAnyRule, IsAfterTags, KeepsButPolygons, KeepsRules};

use super::features::FeatureRule;
use super::layer_scan::USUAL_KEYS;
use crate::feature_bytes::FeatureBytes;
use crate::record::Kind;
use mvt_fault::Fault;
use mvt_wire::field_number::{FEATURES, LAYERS};
use mvt_wire::payload::payload_span;
use mvt_wire::{Fields, Part};
use std::alloc::{AllocError, Global};

/// The same as `rule_fault_after`, where the tile keeps the rules on its layers and tags, and all
/// features keep the further rule but those of polygons: of others only the types are read, and of none
/// the tags. It takes no memory of its own. The only error is that memory was refused.
pub fn polygon_fault<R: FeatureRule>(
    alloc: Global,
    bytes: &[u8],
    rule: &mut R,
    found: &mut Option<Fault>,
) -> Result<(), AllocError>
    requires nothing { found.old ≡ None }
    requires tile { (tile : TileRecord) × IsTile bytes.now tile }
    requires others { (tile : TileRecord) → IsTile bytes.now tile
        → KeepsButPolygons R.IsBroken R.IsKept tile }
    requires after_tags { (feature_record : FeatureRecord) (layer_index feature_index : ℕ)
        (fault : Fault)
        → R.IsBroken feature_record layer_index feature_index fault
        → IsAfterTags layer_index feature_index (place_of fault) }
    ensures none { OnOk result (IfNone found.new ((tile : TileRecord) → IsTile bytes.now tile
        → KeepsRules R.IsKept tile)) }
    ensures found { OnOk result (IfSome found.new (λ fault. (tile : TileRecord)
        → IsTile bytes.now tile
        → IsLeastOr R.IsFree (BreaksAnyRule R.IsBroken tile) fault)) }
    ensures least { ((fault : Fault) → ¬ R.IsFree fault)
        → OnOk result (IfSome found.new (λ fault. (tile : TileRecord)
        → IsTile bytes.now tile
        → IsLeast (BreaksAnyRule R.IsBroken tile) fault)) }
{
    let mut layer_index = 0;
    let mut fields = Fields::new(bytes, 0, bytes.len());
    'walk: while let Some(field) = fields.next_whole() {
        if field.number == LAYERS {
            let (from, to) = payload_span(field.body);
            let part = Part { bytes, from, to };
            find_in_layer(alloc, part, rule, layer_index, found)?;
            if found.is_some() {
                return Ok(());
            }
            layer_index += 1;
        }
    }
    Ok(())
}

/// Stores the first fault of the features of a layer with an ordinal, which a part of the bytes holds, in
/// `found`, which is None before. The only error is that memory was refused.
fn find_in_layer<R: FeatureRule>(
    alloc: Global,
    part: Part<'_>,
    rule: &mut R,
    layer_index: usize,
    found: &mut Option<Fault>,
) -> Result<(), AllocError>
    requires nothing { found.old ≡ None }
    requires stands { (layer_record : LayerRecord) × Holds IsLayer part layer_record }
    requires others { (layer_record : LayerRecord) → Holds IsLayer part layer_record
        → AreSoundButPolygons R.IsBroken R.IsKept layer_record layer_index }
    requires after_tags { AreAfterTags R.IsBroken }
    ensures { OnOk result ((layer_record : LayerRecord) → Holds IsLayer part.entry layer_record
        → FindsInLayer R.IsFree R.IsBroken R.IsKept layer_record layer_index found.new) }
{
    let mut feature_index = 0;
    let mut fields = Fields::new(part.bytes, part.from, part.to);
    'walk: while let Some(field) = fields.next_usual(USUAL_KEYS) {
        if field.number == FEATURES {
            let (from, to) = payload_span(field.body);
            let bytes = part.bytes;
            find_in_polygons(
                alloc,
                Part { bytes, from, to },
                rule,
                layer_index,
                feature_index,
                found,
            )?;
            if found.is_some() {
                return Ok(());
            }
            feature_index += 1;
        }
    }
    Ok(())
}

/// Stores the first fault of the feature that a part of the bytes holds by the further rule in `found`,
/// which is None before, where it is one of polygons. The only error is that memory was refused.
#[inline(always)]
fn find_in_polygons<R: FeatureRule>(
    alloc: Global,
    part: Part<'_>,
    rule: &mut R,
    layer_index: usize,
    feature_index: usize,
    found: &mut Option<Fault>,
) -> Result<(), AllocError>
    requires nothing { found.old ≡ None }
    requires stands { (feature_record : FeatureRecord) × Holds IsFeature part feature_record }
    ensures none { OnOk result (IfNone found.new ((feature_record : FeatureRecord)
        → Holds IsFeature part.entry feature_record → feature_record.kind ≡ 3
        → ((fault : Fault) → ¬ R.IsBroken feature_record layer_index feature_index fault)
        × R.IsKept feature_record)) }
    ensures found { OnOk result (IfSome found.new (λ fault. (feature_record : FeatureRecord)
        → Holds IsFeature part.entry feature_record
        → IsLeastOr R.IsFree (R.IsBroken feature_record layer_index feature_index) fault)) }
{
    let feature = FeatureBytes::new(part);
    match feature.kind() {
        Kind::Polygon => rule.find_fault(alloc, &feature, layer_index, feature_index, found),
        _ => Ok(()),
    }
}
