//! The versions and names of a tile's layers (Mapbox Vector Tile Specification 2.1, section 4.1).
ghost use Rattle.std.specs.Prelude.{◌≡◌, ◌↔◌, IsTrue, slice_get, IfSome, IfNone};
ghost use Rattle.mvt_rules.specs.Rules.{OtherVersion, SameName};
ghost use Rattle.mvt_rules.specs.Tile.{LayerRecord, TileRecord, IsTile};

use crate::message_bytes::MessageBytes;
use crate::numbers::number_of;
use crate::span::{payload_of, span_of_scope};
use mvt_wire::Scope;
use mvt_wire::field_number::{LAYER_NAME, VERSION};

/// Of bytes that are a tile: there is a layer with this ordinal, and its version isn't 2 (section
/// 4.1).
pub(crate) fn has_other_version(bytes: &[u8], layer: usize) -> bool
    ensures { (tile : TileRecord) → IsTile bytes.now tile
        → (IsTrue result ↔ OtherVersion tile layer) }
{
    match span_of_scope(bytes, &Scope::Layer(layer)) {
        Some(span) => number_of(&MessageBytes { bytes, span }, VERSION) != Some(2),
        None => false,
    }
}

/// Of bytes that are a tile: there are layers with these ordinals, the first of them comes first,
/// and their names are the same byte for byte (section 4.1).
pub(crate) fn has_same_name(bytes: &[u8], first: usize, second: usize) -> bool
    ensures { (tile : TileRecord) → IsTile bytes.now tile
        → (IsTrue result ↔ SameName tile first second) }
{
    if first >= second {
        return false;
    }
    let Some(name) = name_of(bytes, first) else {
        return false;
    };
    let Some(other) = name_of(bytes, second) else {
        return false;
    };
    name == other
}

/// Of bytes that are a tile: the name of the layer with an ordinal, or None where there is no such
/// layer.
fn name_of(bytes: &[u8], layer: usize) -> Option<&[u8]>
    ensures there { IfSome result (λ name. (tile : TileRecord) → IsTile bytes.now tile →
        (layer_record : LayerRecord) × (slice_get tile.layers layer ≡ Some layer_record)
        × (layer_record.name ≡ name.now)) }
    ensures none { IfNone result ((tile : TileRecord) (layer_record : LayerRecord)
        → IsTile bytes.now tile →
        ¬ (slice_get tile.layers layer ≡ Some layer_record)) }
{
    let span = span_of_scope(bytes, &Scope::Layer(layer))?;
    let name = payload_of(&MessageBytes { bytes, span }, LAYER_NAME, 0)?;
    Some(&bytes[name.from..name.to])
}
