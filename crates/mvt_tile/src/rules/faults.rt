//! The faults of a tile by its rules, one of each layer and one of each feature that has any.
ghost use Rattle.std.specs.Prelude.{◌≡◌, ◌++◌, [], ℕ, List, length, IfOk, OnOk};
ghost use Rattle.mvt_fault.specs.Place.{place_of};
ghost use Rattle.mvt_fault.specs.declared.fault.Fault.{Fault};
ghost use Rattle.mvt_rules.specs.Tile.{FeatureRecord, TileRecord, IsTile};
ghost use Rattle.mvt_tile.specs.Calls.Gathered.{AreGatheredLayers, AreGatheredTo, AreSummaries};
ghost use Rattle.mvt_tile.specs.Calls.RuleFaults.{AreAfterTags};
ghost use Rattle.mvt_tile.specs.FirstFaults.{AreFirstFaults};
ghost use Rattle.mvt_tile.specs.RuleFaults.{IsAfterTags};

use super::feature_faults::add_faults_in_layer;
use super::features::{FeatureBuffer, FeatureRule};
use super::layer_faults::faults_of_layers;
use super::summary::LayerSummary;
use mvt_fault::Fault;
use mvt_wire::field_number::LAYERS;
use mvt_wire::payload::payload_span;
use mvt_wire::{Fields, Part};
use std::alloc::{AllocError, Global};

/// The faults of a tile by its rules, which are those of `rule_fault`: the first of each layer that
/// has another version, or the name of an earlier layer; then the first of each feature that has a
/// fault of its tags or by the further rule, or a free one of the rule, whatever its layer's version
/// and name are. They stand in their order, so the first of them is one that `rule_fault` may
/// answer, and the list is empty where the tile keeps the rules. The bytes are read again: each layer
/// once, or twice where a tag names a key or a value that the layer doesn't have. Its memory is for
/// the faults, for what is kept of each layer, for one feature at a time, and for marks of keys. The
/// only error is that memory was refused.
pub fn rule_faults<R: FeatureRule>(
    alloc: Global,
    bytes: &[u8],
    rule: &mut R,
) -> Result<Vec<Fault>, AllocError>
    requires tile { (tile : TileRecord) × IsTile bytes.now tile }
    requires after_tags { (feature_record : FeatureRecord) (layer_index feature_index : ℕ)
        (fault : Fault)
        → R.IsBroken feature_record layer_index feature_index fault
        → IsAfterTags layer_index feature_index (place_of fault) }
    ensures { IfOk result (λ faults. (tile : TileRecord) → IsTile bytes.now tile
        → AreFirstFaults R.IsFree R.IsBroken R.IsKept tile faults.items) }
{
    let mut layers = Vec::new(alloc);
    let mut faults = Vec::new(alloc);
    let mut buffer = FeatureBuffer::new(alloc);
    walk_all_layers(bytes, rule, &mut buffer, &mut layers, &mut faults)?;
    add_faults_of_layers(alloc, &layers, &mut faults)?;
    Ok(faults)
}

/// Adds the faults of the layers themselves in front of those of their features. The only error is
/// that memory was refused.
fn add_faults_of_layers(
    alloc: Global,
    layers: &[LayerSummary<'_>],
    faults: &mut Vec<Fault>,
) -> Result<(), AllocError>
    ensures { OnOk result ((of_layers : List Fault)
        × ((tile : TileRecord) → AreSummaries layers.now tile
        → AreGatheredLayers tile (length tile.layers) of_layers)
        × (faults.new.items ≡ of_layers ++ faults.old.items)) }
{
    let mut of_layers = faults_of_layers(alloc, layers)?;
    let count = of_layers.len();
    faults.append(&mut of_layers)?;
    faults.rotate_right(count);
    Ok(())
}

/// Walks over all layers of a tile, whatever their versions, and adds the summary of each to
/// `layers`, and the first fault of each feature that has one to `faults`. Both are empty before.
/// The only error is that memory was refused.
fn walk_all_layers<'a, R: FeatureRule>(
    bytes: &'a [u8],
    rule: &mut R,
    buffer: &mut FeatureBuffer,
    layers: &mut Vec<LayerSummary<'a>>,
    faults: &mut Vec<Fault>,
) -> Result<(), AllocError>
    requires tile { (tile : TileRecord) × IsTile bytes.now tile }
    requires no_layer { layers.old.items ≡ [] }
    requires no_fault { faults.old.items ≡ [] }
    requires after_tags { AreAfterTags R.IsBroken }
    ensures summaries { OnOk result ((tile : TileRecord) → IsTile bytes.now tile
        → AreSummaries layers.new.items tile) }
    ensures gathers { OnOk result ((tile : TileRecord) → IsTile bytes.now tile
        → AreGatheredTo R.IsFree R.IsBroken R.IsKept tile (length tile.layers) 0 faults.new.items) }
{
    let mut layer_index = 0;
    let mut fields = Fields::new(bytes, 0, bytes.len());
    'walk: while let Some(field) = fields.next_whole() {
        if field.number == LAYERS {
            let (from, to) = payload_span(field.body);
            let part = Part { bytes, from, to };
            let summary = add_faults_in_layer(part, rule, layer_index, buffer, faults)?;
            layers.push(summary)?;
            layer_index += 1;
        }
    }
    Ok(())
}
