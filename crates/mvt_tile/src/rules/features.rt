//! The rules on a feature of a tile, which is read from its bytes.
ghost use Rattle.std.specs.Prelude.{◌≡◌, ◌<◌, ◌≤◌, ℕ, None, IfOk, IfNone, IfSome};
ghost use Rattle.mvt_fault.specs.declared.fault.Fault.{Fault};
ghost use Rattle.mvt_rules.specs.Tile.{FeatureRecord, IsFeature, LayerRecord};
ghost use Rattle.mvt_wire.specs.Embedded.{Holds, span_in};
ghost use Rattle.mvt_tile.specs.Calls.FeatureRules.{FindsInFeature};
ghost use Rattle.mvt_tile.specs.FeatureBytes.{Encodes};
ghost use Rattle.mvt_tile.specs.FreeFaults.{IsLeastOr};
ghost use Rattle.mvt_tile.specs.Calls.RuleFaults.{AreAfterTags};
ghost use Rattle.mvt_tile.specs.Enough.{IsLike};
ghost use Rattle.mvt_tile.specs.Sound.{IsSoundIn};

use super::key_marks::KeyMarks;
use super::tags::{TagNeeds, scan_tags};
use crate::feature_bytes::FeatureBytes;
use crate::seen::Seen;
use mvt_fault::Fault;
use mvt_wire::Part;
use std::alloc::{AllocError, Global};

/// What is required of each feature of a tile beyond its tags. A rule may change its state, to
/// reuse memory and to count; what it requires doesn't change. Its faults must have later places
/// than those of the feature's tags, and earlier ones than those of later features.
pub trait FeatureRule {
    // the feature has this fault; the ordinals are those of its layer, and of the feature in it
    ghost IsBroken: { FeatureRecord → ℕ → ℕ → Fault → Type 0 };
    // which faults may be found in place of a feature's first one
    ghost IsFree: { Fault → Type 0 };
    // the feature keeps the rule
    ghost IsKept: { FeatureRecord → Type 0 };

    /// Stores the first fault of a feature in `found`, which is None before, or a free one. It stays
    /// None where the feature has none, and then the feature keeps the rule. `layer_index` is the ordinal of
    /// its layer in the tile, and `feature_index` its own in the layer, both counted from 0, for
    /// the fault to name. The only error is that memory was refused.
    fn find_fault(
        &mut self,
        alloc: Global,
        feature: &FeatureBytes<'_>,
        layer_index: usize,
        feature_index: usize,
        found: &mut Option<Fault>,
    ) -> Result<(), AllocError>
        requires { found.old ≡ None }
        ensures none { IfOk result (λ _. IfNone found.new ((feature_record : FeatureRecord)
            → Encodes feature.now feature_record → (fault : Fault)
            → ¬ IsBroken feature_record layer_index feature_index fault)) }
        ensures kept { IfOk result (λ _. IfNone found.new ((feature_record : FeatureRecord)
            → Encodes feature.now feature_record → IsKept feature_record)) }
        ensures found { IfOk result (λ _.
            IfSome found.new (λ fault. (feature_record : FeatureRecord)
            → Encodes feature.now feature_record
            → IsLeastOr IsFree (IsBroken feature_record layer_index feature_index) fault)) };
}

/// What serves one feature after another: memory, and marks of the keys of its tags.
#[derive(Drop)]
pub(crate) struct FeatureBuffer {
    /// What memory is taken from.
    pub(crate) alloc: Global,
    pub(crate) marks: KeyMarks,
}

impl FeatureBuffer {
    /// A buffer that has served no feature. It takes no memory.
    pub(crate) fn new(alloc: Global) -> FeatureBuffer {
        FeatureBuffer {
            alloc,
            marks: KeyMarks::new(alloc),
        }
    }
}

/// The same of the feature that a part of the bytes holds, unless it ends in front of the offset that
/// was seen, and so is sound.
#[inline(always)]
pub(crate) fn find_unless_seen<R: FeatureRule>(
    rule: &mut R,
    buffer: &mut FeatureBuffer,
    needs: &mut TagNeeds,
    keys: usize,
    values: usize,
    seen: Seen,
    part: Part<'_>,
    layer_index: usize,
    feature_index: usize,
    found: &mut Option<Fault>,
) -> Result<(), AllocError>
    requires stands { (feature_record : FeatureRecord) × Holds IsFeature part feature_record }
    requires nothing { found.old ≡ None }
    requires after_tags { AreAfterTags R.IsBroken }
    requires sound { part.to < seen.to → IsSoundIn R.IsBroken R.IsKept part.bytes.now
        (IsLike keys values seen.needs) layer_index feature_index (span_in part) }
    ensures no_fewer_keys { needs.old.keys ≤ needs.new.keys }
    ensures no_fewer_values { needs.old.values ≤ needs.new.values }
    ensures finds { IfOk result (λ _. (layer_record : LayerRecord) (feature_record : FeatureRecord)
        → Holds IsFeature part.entry feature_record → IsLike keys values needs.new layer_record
        → FindsInFeature R.IsFree R.IsBroken R.IsKept layer_record feature_record layer_index feature_index
        found.new) }
{
    if part.to < seen.to {
        needs.add(seen.needs);
        return Ok(());
    }
    let feature = FeatureBytes::new(part);
    find_in_feature(
        rule,
        buffer,
        needs,
        keys,
        values,
        &feature,
        layer_index,
        feature_index,
        found,
    )
}

/// Stores the first fault of a feature in `found`, or a free one. It is None before and stays so where
/// the feature has none: that of its tags, in a layer of so many keys and values, comes before the
/// further rule. Adds what the tags need. The only error is that memory was refused.
pub(crate) fn find_in_feature<R: FeatureRule>(
    rule: &mut R,
    buffer: &mut FeatureBuffer,
    needs: &mut TagNeeds,
    keys: usize,
    values: usize,
    feature: &FeatureBytes<'_>,
    layer_index: usize,
    feature_index: usize,
    found: &mut Option<Fault>,
) -> Result<(), AllocError>
    requires nothing { found.old ≡ None }
    requires after_tags { AreAfterTags R.IsBroken }
    ensures no_fewer_keys { needs.old.keys ≤ needs.new.keys }
    ensures no_fewer_values { needs.old.values ≤ needs.new.values }
    ensures finds { IfOk result (λ _. (layer_record : LayerRecord) (feature_record : FeatureRecord)
        → Encodes feature.now feature_record → IsLike keys values needs.new layer_record
        → FindsInFeature R.IsFree R.IsBroken R.IsKept layer_record feature_record layer_index feature_index
        found.new) }
{
    if feature.has_no_tag() {
        return rule.find_fault(buffer.alloc, feature, layer_index, feature_index, found);
    }
    let mut of_tags = None;
    let mut tags = feature.tags();
    needs.add(scan_tags(&mut buffer.marks, &mut tags, keys, values, &mut of_tags)?);
    let Some((code, index)) = of_tags else {
        return rule.find_fault(buffer.alloc, feature, layer_index, feature_index, found);
    };
    *found = Some(Fault::Tag {
        code,
        layer: layer_index,
        feature: feature_index,
        index,
    });
    Ok(())
}
