//! The tags of a feature (Mapbox Vector Tile Specification 2.1, section 4.4).
ghost use Rattle.std.specs.Prelude.{◌≡◌, ◌+◌, ◌<◌, ◌≤◌, ◌^◌, ◌∷◌, [], ℕ, List, length, drop, IfOk, IfNone, IfSome, Some, None, slice_get};
ghost use Rattle.mvt_fault.specs.Place.{IsLeast};
ghost use Rattle.mvt_rules.specs.Parts.TrueFaults.{IsFaultOfTags};
ghost use Rattle.mvt_fault.specs.declared.fault.Fault.{Fault};
ghost use Rattle.mvt_fault.specs.declared.fault.Fault.TheVariants.{Tag};
ghost use Rattle.mvt_fault.specs.declared.tag.TagCode.{TagCode};
ghost use Rattle.mvt_rules.specs.Tile.{FeatureRecord};
ghost use Rattle.mvt_tile.specs.Calls.RuleFaults.{FindsFirstTagFault};
ghost use Rattle.mvt_tile.specs.Calls.PassedTags.{ArePassed, HasFoundBefore, IsPairAt, IsScanned, AreMetBy};
ghost use Rattle.mvt_tile.specs.View.{layer_of};
ghost use Rattle.mvt_tile.specs.declared.rules.key_marks.KeyMarks.{KeyMarks};

use super::key_marks::KeyMarks;
use crate::record::Layer;
use mvt_fault::{Fault, TagCode};
use mvt_wire::{ListedNumbers, NumberSource};
use std::alloc::{AllocError, Global};

/// The first fault of the tags of a layer's feature, or None where there is none (section 4.4).
/// `layer_index` is the ordinal of the layer in its tile, for the fault to name; `feature_index` is
/// that of the feature in the layer, and below the number of its features; both count from 0. The
/// only error is that memory was refused.
pub fn check_tags(
    alloc: Global,
    layer: &Layer<'_>,
    layer_index: usize,
    feature_index: usize,
) -> Result<Option<Fault>, AllocError>
    requires { feature_index < length layer.now.features.items }
    ensures none { IfOk result (λ found. IfNone found ((feature_record : FeatureRecord)
        → slice_get (layer_of layer.now).features feature_index ≡ Some feature_record
        → (fault : Fault) → ¬ IsFaultOfTags (layer_of layer.now) feature_record layer_index
        feature_index fault)) }
    ensures least { IfOk result (λ found. IfSome found (λ fault. (feature_record : FeatureRecord)
        → slice_get (layer_of layer.now).features feature_index ≡ Some feature_record
        → IsLeast (IsFaultOfTags (layer_of layer.now) feature_record layer_index feature_index)
        fault)) }
{
    let mut tags = ListedNumbers::new(&layer.features[feature_index].tags);
    let mut marks = KeyMarks::new(alloc);
    let mut found = None;
    let (keys, values) = (layer.keys.len(), layer.values.len());
    scan_tags(&mut marks, &mut tags, keys, values, &mut found)?;
    Ok(tag_fault(found, layer_index, feature_index))
}

/// The fault of a feature's tags that was found, with the ordinals of the layer and the feature.
fn tag_fault(
    found: Option<(TagCode, usize)>,
    layer_index: usize,
    feature_index: usize,
) -> Option<Fault>
    ensures none { IfNone result (found ≡ None) }
    ensures tag { IfSome result (λ fault. (tag : TagCode × ℕ) × (found ≡ Some tag)
        × (fault ≡ Tag tag.0 layer_index feature_index tag.1)) }
{
    match found {
        Some((code, index)) => Some(Fault::Tag {
            code,
            layer: layer_index,
            feature: feature_index,
            index,
        }),
        None => None,
    }
}

/// How many keys and values a layer must have at least, so that it has those that tags name.
#[derive(Clone, Copy)]
pub(crate) struct TagNeeds {
    pub(crate) keys: usize,
    pub(crate) values: usize,
}

impl TagNeeds {
    /// The needs where there are no tags.
    pub(crate) fn none() -> TagNeeds
        ensures { result ≡ record { keys = 0; values = 0 } }
    {
        TagNeeds { keys: 0, values: 0 }
    }

    /// What a pair of tags needs.
    #[inline(always)]
    pub(crate) fn of(key: u32, value: u32) -> TagNeeds
        ensures { result ≡ record { keys = key + 1; values = value + 1 } }
    {
        TagNeeds {
            keys: key as usize + 1,
            values: value as usize + 1,
        }
    }

    /// Adds other needs.
    #[inline(always)]
    pub(crate) fn add(&mut self, other: TagNeeds)
        ensures keys { (self.old.keys ≤ self.new.keys) × (other.keys ≤ self.new.keys) }
        ensures values { (self.old.values ≤ self.new.values) × (other.values ≤ self.new.values) }
    {
        *self = TagNeeds {
            keys: self.keys.max(other.keys),
            values: self.values.max(other.values),
        };
    }
}

/// What tags need of their layer, by one pass over them. Stores their first fault in a layer of so
/// many keys and values, and its place in the list, in `found`, which is None before. A number left
/// over at the end needs nothing: a list of odd length has no fault but its length, in whatever
/// layer. `marks` keeps marks of keys, and is used again for each feature. The only error is that
/// memory was refused.
#[inline(always)]
pub(super) fn scan_tags<N: NumberSource + Drop>(
    marks: &mut KeyMarks,
    tags: &mut N,
    keys: usize,
    values: usize,
    found: &mut Option<(TagCode, usize)>,
) -> Result<TagNeeds, AllocError>
    requires nothing { found.old ≡ None }
    requires few { N.most tags.old < 2 ^ 63 }
    ensures { IfOk result (λ needs. (given : List ℕ) → N.Leaves tags.old given
        → FindsFirstTagFault keys values given found.new × AreMetBy needs given) }
{
    marks.clear();
    let mut needs = TagNeeds::none();
    let mut at = 0;
    'pairs: while let Some((key, value)) = next_tags(tags) {
        let Some(value) = value else {
            *found = Some((TagCode::OddLength, at + 1));
            return Ok(needs);
        };
        needs.add(TagNeeds::of(key, value));
        if let Some(fault) = fault_of_pair(marks, key, value, at, keys, values)? {
            return Ok(scan_rest(tags, at + 2, needs, fault, found));
        }
        at += 2;
    }
    Ok(needs)
}

/// The rest of that pass, from a place after the first pair that has a fault: the list may still be
/// of odd length.
#[inline(always)]
fn scan_rest<N: NumberSource + Drop>(
    tags: &mut N,
    from: usize,
    before: TagNeeds,
    fault: (TagCode, usize),
    found: &mut Option<(TagCode, usize)>,
) -> TagNeeds
    requires few { from + N.most tags.old < 2 ^ 63 }
    ensures { (given : List ℕ) → N.Leaves tags.old (drop from given)
        → (set : KeyMarks) (keys values : ℕ)
        → IsScanned set keys values given from before (Some fault)
        → FindsFirstTagFault keys values given found.new × AreMetBy result given }
{
    let mut needs = before;
    let mut at = from;
    'pairs: while let Some((key, value)) = next_tags(tags) {
        let Some(value) = value else {
            *found = Some((TagCode::OddLength, at + 1));
            return needs;
        };
        needs.add(TagNeeds::of(key, value));
        at += 2;
    }
    *found = Some(fault);
    needs
}

/// The next pair of tags, or a number that is left over at the end, or None at the end.
#[inline(always)]
pub(crate) fn next_tags<N: NumberSource + Drop>(tags: &mut N) -> Option<(u32, Option<u32>)>
    ensures end { IfNone result ((given : List ℕ) → N.Leaves tags.old given → given ≡ []) }
    ensures odd { IfSome result (λ next. IfNone next.1 ((given : List ℕ) → N.Leaves tags.old given
        → given ≡ next.0 ∷ [])) }
    ensures pair { IfSome result (λ next. IfSome next.1 (λ value. (given : List ℕ)
        → N.Leaves tags.old given
        → (rest : List ℕ) × (given ≡ next.0 ∷ value ∷ rest) × N.Leaves tags.new rest)) }
    ensures fewer { IfSome result (λ next. IfSome next.1 (λ _.
        N.most tags.new + 2 ≤ N.most tags.old)) }
{
    match tags.next_small_pair() {
        Some((key, value)) => Some((key, Some(value))),
        None => match tags.next_short_pair() {
            Some((key, value)) => Some((key, Some(value))),
            None => any_tags(tags),
        },
    }
}

/// The same, one number after the other.
#[inline(always)]
fn any_tags<N: NumberSource + Drop>(tags: &mut N) -> Option<(u32, Option<u32>)>
    ensures end { IfNone result ((given : List ℕ) → N.Leaves tags.old given → given ≡ []) }
    ensures odd { IfSome result (λ next. IfNone next.1 ((given : List ℕ) → N.Leaves tags.old given
        → given ≡ next.0 ∷ [])) }
    ensures pair { IfSome result (λ next. IfSome next.1 (λ value. (given : List ℕ)
        → N.Leaves tags.old given
        → (rest : List ℕ) × (given ≡ next.0 ∷ value ∷ rest) × N.Leaves tags.new rest)) }
    ensures fewer { IfSome result (λ next. IfSome next.1 (λ _.
        N.most tags.new + 2 ≤ N.most tags.old)) }
{
    let key = tags.next_number()?;
    let value = tags.next_number();
    Some((key, value))
}

/// The first fault of the pair of tags at a place, where those before it have none, and its place.
/// The only error is that memory was refused.
#[inline(always)]
fn fault_of_pair(
    marks: &mut KeyMarks,
    key: u32,
    value: u32,
    at: usize,
    keys: usize,
    values: usize,
) -> Result<Option<(TagCode, usize)>, AllocError>
    requires { at + 1 < 2 ^ 64 }
    ensures { IfOk result (λ found. (tags : List ℕ) → IsPairAt tags at key value
        → ArePassed marks.old keys values tags at
        → HasFoundBefore marks.new keys values tags (at + 2) found) }
{
    if key as usize >= keys {
        return Ok(Some((TagCode::NoKey, at)));
    }
    if !marks.insert(key)? {
        return Ok(Some((TagCode::Repeated, at)));
    }
    if value as usize >= values {
        return Ok(Some((TagCode::NoValue, at + 1)));
    }
    Ok(None)
}
