//! The first fault of each feature of a layer, by one walk over it, or by a second one where a tag
//! names a key or a value that the layer doesn't have.
ghost use Rattle.std.specs.Prelude.{◌≡◌, ◌+◌, ◌++◌, List, Some, slice_get, IfOk, OnOk};
ghost use Rattle.mvt_fault.specs.declared.fault.Fault.{Fault};
ghost use Rattle.mvt_wire.specs.Embedded.{Holds};
ghost use Rattle.mvt_rules.specs.Tile.{LayerRecord, IsLayer, TileRecord};
ghost use Rattle.mvt_tile.specs.Calls.Gathered.{AreGatheredTo};
ghost use Rattle.mvt_tile.specs.Calls.RuleFaults.{AreAfterTags, IsSummary};
ghost use Rattle.mvt_tile.specs.Enough.{IsLike};

use super::features::{FeatureBuffer, FeatureRule, find_in_feature};
use super::layer_scan::{LayerScan, USUAL_KEYS};
use super::summary::{LayerSummary, add_field, empty_summary};
use super::tags::TagNeeds;
use crate::feature_bytes::FeatureBytes;
use mvt_fault::Fault;
use mvt_wire::field_number::FEATURES;
use mvt_wire::payload::payload_span;
use mvt_wire::{Fields, Part};
use std::alloc::AllocError;

/// The summary of the layer with an ordinal, which a part of the bytes holds. Adds the first fault
/// of each of its features that has one. The only error is that memory was refused.
///
/// Tags are checked as `find_in_layer` does. Where they need more than the layer has, the faults that
/// the first walk added are taken back.
pub(crate) fn add_faults_in_layer<'a, R: FeatureRule>(
    part: Part<'a>,
    rule: &mut R,
    layer_index: usize,
    buffer: &mut FeatureBuffer,
    faults: &mut Vec<Fault>,
) -> Result<LayerSummary<'a>, AllocError>
    requires stands { (layer_record : LayerRecord) × Holds IsLayer part layer_record }
    requires after_tags { AreAfterTags R.IsBroken }
    ensures summary { IfOk result (λ summary. (layer_record : LayerRecord)
        → Holds IsLayer part.entry layer_record → IsSummary summary layer_record) }
    ensures gathers { OnOk result ((tile : TileRecord) (layer_record : LayerRecord)
        → slice_get tile.layers layer_index ≡ Some layer_record
        → Holds IsLayer part.entry layer_record
        → AreGatheredTo R.IsFree R.IsBroken R.IsKept tile layer_index 0 faults.old.items
        → AreGatheredTo R.IsFree R.IsBroken R.IsKept tile (layer_index + 1) 0 faults.new.items) }
{
    let before = faults.len();
    let most = part.to - part.from;
    let scan = add_faults(part, rule, layer_index, most, most, buffer, faults)?;
    let LayerSummary { keys, values, .. } = scan.summary;
    if scan.needs.keys <= keys && scan.needs.values <= values {
        return Ok(scan.summary);
    }
    faults.truncate(before);
    add_faults(part, rule, layer_index, keys, values, buffer, faults)?;
    Ok(scan.summary)
}

/// The same by one walk, as the tags' faults are in a layer of so many keys and values.
fn add_faults<'a, R: FeatureRule>(
    part: Part<'a>,
    rule: &mut R,
    layer_index: usize,
    keys: usize,
    values: usize,
    buffer: &mut FeatureBuffer,
    faults: &mut Vec<Fault>,
) -> Result<LayerScan<'a>, AllocError>
    requires stands { (layer_record : LayerRecord) × Holds IsLayer part layer_record }
    requires after_tags { AreAfterTags R.IsBroken }
    ensures summary { IfOk result (λ scan. (layer_record : LayerRecord)
        → Holds IsLayer part.entry layer_record → IsSummary scan.summary layer_record) }
    ensures added { OnOk result ((own : List Fault)
        × (faults.new.items ≡ faults.old.items ++ own)) }
    ensures gathers { IfOk result (λ scan. (tile : TileRecord) (layer_record : LayerRecord)
        → slice_get tile.layers layer_index ≡ Some layer_record
        → Holds IsLayer part.entry layer_record → IsLike keys values scan.needs layer_record
        → AreGatheredTo R.IsFree R.IsBroken R.IsKept tile layer_index 0 faults.old.items
        → AreGatheredTo R.IsFree R.IsBroken R.IsKept tile (layer_index + 1) 0 faults.new.items) }
{
    let mut summary = empty_summary();
    let mut needs = TagNeeds::none();
    let mut feature_index = 0;
    let mut fields = Fields::new(part.bytes, part.from, part.to);
    'walk: while let Some(field) = fields.next_usual(USUAL_KEYS) {
        add_field(&mut summary, field);
        if field.number == FEATURES {
            let (from, to) = payload_span(field.body);
            let bytes = part.bytes;
            let feature = FeatureBytes::new(Part { bytes, from, to });
            let mut found = None;
            find_in_feature(
                rule,
                buffer,
                &mut needs,
                keys,
                values,
                &feature,
                layer_index,
                feature_index,
                &mut found,
            )?;
            if let Some(fault) = found {
                faults.push(fault)?;
            }
            feature_index += 1;
        }
    }
    Ok(LayerScan { summary, needs })
}
