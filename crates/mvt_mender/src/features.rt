//! The features with faults, as they stand in a tile's bytes.
ghost use Rattle.std.specs.Prelude.{◌≡◌, ◌≢◌, ◌+◌, Some, slice_get, IfOk, IsFalse, IsTrue, OnOk};
ghost use Rattle.mvt_wire.specs.Embedded.{Holds};
ghost use Rattle.mvt_rules.specs.Tile.{LayerRecord, IsLayer, TileRecord, IsTile};
ghost use Rattle.mvt_mender.specs.Calls.Features.{AreAllFound, AreFoundTo, AreInTurn, HaveFeatures};
ghost use Rattle.mvt_mender.specs.declared.place.FeaturePlace.{FeaturePlace};

use crate::place::FeaturePlace;
use mvt_tile::FeatureBytes;
use mvt_wire::field_number::{FEATURES, LAYERS};
use mvt_wire::payload::payload_span;
use mvt_wire::{Fields, Part};
use std::alloc::{AllocError, Global};

/// The features at these places of a tile without wire fault, which are in their order in the tile,
/// none twice. The tile is walked over once, and the fields of other features aren't read. The only
/// error is that memory was refused.
pub(crate) fn features_at<'a>(
    alloc: Global,
    bytes: &'a [u8],
    places: &[FeaturePlace],
) -> Result<Vec<FeatureBytes<'a>>, AllocError>
    requires tile { (tile : TileRecord) × IsTile bytes.now tile }
    requires there { HaveFeatures bytes.now places.now }
    requires in_turn { AreInTurn places.now }
    ensures { IfOk result (λ found. AreAllFound bytes.entry.now places.now found.items) }
{
    let mut found = Vec::new(alloc);
    let mut layer = 0;
    let mut fields = Fields::new(bytes, 0, bytes.len());
    'walk: while let Some(field) = fields.next_whole() {
        if field.number == LAYERS {
            let (from, to) = payload_span(field.body);
            let part = Part { bytes, from, to };
            add_features(part, layer, places, &mut found)?;
            layer += 1;
        }
    }
    Ok(found)
}

/// Adds the features at the places that are in the layer with this ordinal, which a part of the
/// bytes holds.
fn add_features<'a>(
    part: Part<'a>,
    layer: usize,
    places: &[FeaturePlace],
    found: &mut Vec<FeatureBytes<'a>>,
) -> Result<(), AllocError>
    requires stands { (layer_record : LayerRecord) × Holds IsLayer part layer_record }
    requires in_turn { AreInTurn places.now }
    requires there { HaveFeatures part.bytes.now places.now }
    ensures { OnOk result ((tile : TileRecord) (layer_record : LayerRecord)
        → IsTile part.entry.bytes.now tile → slice_get tile.layers layer ≡ Some layer_record
        → Holds IsLayer part.entry layer_record
        → AreFoundTo part.entry.bytes.now places.now layer 0 found.old.items
        → AreFoundTo part.entry.bytes.now places.now (layer + 1) 0 found.new.items) }
{
    let mut feature = 0;
    let mut fields = Fields::new(part.bytes, part.from, part.to);
    'walk: while let Some(field) = fields.next_whole() {
        if field.number == FEATURES {
            let (from, to) = payload_span(field.body);
            let bytes = part.bytes;
            if is_next(places, found.len(), layer, feature) {
                let it = FeatureBytes::new(Part { bytes, from, to });
                found.push(it)?;
            }
            feature += 1;
        }
    }
    Ok(())
}

/// Whether the place with this number is that of a feature.
fn is_next(places: &[FeaturePlace], number: usize, layer: usize, feature: usize) -> bool
    ensures yes { IsTrue result → slice_get places.now number
        ≡ Some (record { layer = layer; feature = feature }) }
    ensures no { IsFalse result → (place : FeaturePlace) → slice_get places.now number ≡ Some place
        → place.layer ≡ layer → place.feature ≢ feature }
{
    places.get(number) == Some(&FeaturePlace { layer, feature })
}
