//! The features of a layer, and its summary, by one walk over it, or by a second one where a tag
//! names a key or a value that the layer doesn't have.
ghost use Rattle.std.specs.Prelude.{◌≡◌, true, false, is_some, IfOk};
ghost use Rattle.mvt_rules.specs.Tile.{LayerRecord, IsLayer};
ghost use Rattle.mvt_tile.specs.Calls.FeatureRules.{FindsInLayer};
ghost use Rattle.mvt_wire.specs.Embedded.{Holds, span_in};
ghost use Rattle.mvt_tile.specs.Calls.RuleFaults.{AreAfterTags, IsSummary};
ghost use Rattle.mvt_tile.specs.Enough.{IsLike};
ghost use Rattle.mvt_tile.specs.Sound.{AreSoundBefore, IsSoundTo};

use super::features::{FeatureBuffer, FeatureRule, find_unless_seen};
use super::summary::{LayerSummary, add_field, empty_summary};
use super::tags::TagNeeds;
use crate::seen::Seen;
use mvt_fault::Fault;
use mvt_wire::field_number::FEATURES;
use mvt_wire::payload::payload_span;
use mvt_wire::{Fields, Part};
use std::alloc::AllocError;

/// What a key, a value, a feature and a name begin with: the field's number and its wire type.
pub(crate) const USUAL_KEYS: [u8; 4] = [0x1a, 0x22, 0x12, 0x0a];

/// What one walk over a layer finds.
#[derive(Clone, Copy)]
pub(crate) struct LayerScan<'a> {
    pub(crate) summary: LayerSummary<'a>,
    /// How many keys and values the tags need of the features that were checked.
    pub(crate) needs: TagNeeds,
}

/// The summary of the layer with an ordinal, which a part of the bytes holds.
/// Stores the first fault of its features in `found`, unless a fault is there, and then checks
/// none. The only error is that memory was refused.
///
/// Its keys and values may come after its features, so tags are checked as if the layer had as many
/// of both as it has bytes. Where they need more than it has, it is walked again. In front of the
/// offset that was seen, its features aren't looked at, but in that second walk.
pub(crate) fn find_in_layer<'a, R: FeatureRule>(
    part: Part<'a>,
    rule: &mut R,
    layer_index: usize,
    seen: Seen,
    buffer: &mut FeatureBuffer,
    found: &mut Option<Fault>,
) -> Result<LayerSummary<'a>, AllocError>
    requires stands { (layer_record : LayerRecord) × Holds IsLayer part layer_record }
    requires after_tags { AreAfterTags R.IsBroken }
    requires sound { IsSoundTo R.IsBroken R.IsKept part.bytes.now seen layer_index (span_in part) }
    ensures summary { IfOk result (λ summary. (layer_record : LayerRecord)
        → Holds IsLayer part.entry layer_record → IsSummary summary layer_record) }
    ensures kept { IfOk result (λ _. is_some found.old ≡ true → found.new ≡ found.old) }
    ensures finds { IfOk result (λ _. is_some found.old ≡ false → (layer_record : LayerRecord)
        → Holds IsLayer part.entry layer_record
        → FindsInLayer R.IsFree R.IsBroken R.IsKept layer_record layer_index found.new) }
{
    if part.to < seen.to {
        return Ok(layer_summary(part));
    }
    let before = found.is_some();
    let most = part.to - part.from;
    let scan = scan_layer(part, rule, layer_index, most, most, seen, buffer, found)?;
    if before {
        return Ok(scan.summary);
    }
    let LayerSummary { keys, values, .. } = scan.summary;
    if scan.needs.keys <= keys && scan.needs.values <= values {
        return Ok(scan.summary);
    }
    *found = None;
    let nothing = Seen::nothing();
    scan_layer(
        part,
        rule,
        layer_index,
        keys,
        values,
        nothing,
        buffer,
        found,
    )?;
    Ok(scan.summary)
}

/// The same by one walk, as the tags' faults are in a layer of so many keys and values.
fn scan_layer<'a, R: FeatureRule>(
    part: Part<'a>,
    rule: &mut R,
    layer_index: usize,
    keys: usize,
    values: usize,
    seen: Seen,
    buffer: &mut FeatureBuffer,
    found: &mut Option<Fault>,
) -> Result<LayerScan<'a>, AllocError>
    requires stands { (layer_record : LayerRecord) × Holds IsLayer part layer_record }
    requires after_tags { AreAfterTags R.IsBroken }
    requires sound { AreSoundBefore R.IsBroken R.IsKept part.bytes.now keys values seen layer_index
        (span_in part) }
    ensures summary { IfOk result (λ scan. (layer_record : LayerRecord)
        → Holds IsLayer part.entry layer_record → IsSummary scan.summary layer_record) }
    ensures kept { IfOk result (λ _. is_some found.old ≡ true → found.new ≡ found.old) }
    ensures finds { IfOk result (λ scan. is_some found.old ≡ false → (layer_record : LayerRecord)
        → Holds IsLayer part.entry layer_record → IsLike keys values scan.needs layer_record
        → FindsInLayer R.IsFree R.IsBroken R.IsKept layer_record layer_index found.new) }
{
    let mut summary = empty_summary();
    let mut needs = TagNeeds::none();
    let mut feature_index = 0;
    let mut fields = Fields::new(part.bytes, part.from, part.to);
    'walk: while let Some(field) = fields.next_usual(USUAL_KEYS) {
        add_field(&mut summary, field);
        if field.number == FEATURES && found.is_none() {
            let (from, to) = payload_span(field.body);
            let bytes = part.bytes;
            find_unless_seen(
                rule,
                buffer,
                &mut needs,
                keys,
                values,
                seen,
                Part { bytes, from, to },
                layer_index,
                feature_index,
                found,
            )?;
            feature_index += 1;
        }
    }
    Ok(LayerScan { summary, needs })
}

/// The summary of the layer that a part of the bytes holds.
fn layer_summary(part: Part<'_>) -> LayerSummary<'_>
    requires { (layer_record : LayerRecord) × Holds IsLayer part layer_record }
    ensures { (layer_record : LayerRecord) → Holds IsLayer part.entry layer_record
        → IsSummary result layer_record }
{
    let mut summary = empty_summary();
    let mut fields = Fields::new(part.bytes, part.from, part.to);
    'walk: while let Some(field) = fields.next_usual(USUAL_KEYS) {
        add_field(&mut summary, field);
    }
    summary
}
