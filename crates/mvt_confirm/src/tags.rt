//! The tags of a feature (Mapbox Vector Tile Specification 2.1, sections 4.2 and 4.4).
ghost use Rattle.std.specs.Prelude.{◌≡◌, ◌↔◌, ℕ, IsTrue, List, ◌*◌, ◌<◌, ◌≤◌, length, slice_get, Some, IfSome, IfNone};
ghost use Rattle.mvt_rules.specs.Rules.{TagsBreak, OddTags, IsKeyAt, IsValueAt, KeyAgain};
ghost use Rattle.mvt_wire.specs.Field.{Entry};
ghost use Rattle.mvt_wire.specs.Payload.{Span, spans_of};
ghost use Rattle.mvt_rules.specs.Scope.{IsMessageAt, IsScope};
ghost use Rattle.mvt_rules.specs.Tile.{FeatureRecord, TileRecord, IsTile};
ghost use Rattle.mvt_wire.specs.declared.scope.Scope.TheVariants.{Layer};
ghost use Rattle.mvt_confirm.specs.Calls.FeatureMessage.{IsFeatureAt};
ghost use Rattle.mvt_confirm.specs.Calls.Tags.{HasPassed};
ghost use Rattle.mvt_rules.specs.Shows.{OfFeature};

use crate::feature_message::{FeatureMessage, feature_of};
use crate::numbers::next_number;
use crate::span::part_of_layer;
use mvt_fault::TagCode;
use mvt_wire::Numbers;
use mvt_wire::field_number::{KEYS, VALUES};

/// Of bytes that are a tile: there is a feature with this ordinal in the layer with that ordinal,
/// and its tags are wrong at this index, with this code (section 4.4).
pub(crate) fn breaks_tags(
    bytes: &[u8],
    code: TagCode,
    layer: usize,
    feature: usize,
    index: usize,
) -> bool
    ensures { (tile : TileRecord) → IsTile bytes.now tile → (IsTrue result
        ↔ OfFeature bytes.now layer feature (λ layer_record feature_record.
        TagsBreak code (length layer_record.keys) (length layer_record.values) feature_record.tags
        index)) }
{
    let Some(place) = feature_of(bytes, layer, feature) else {
        return false;
    };
    match code {
        TagCode::OddLength => end_odd(&place, index),
        TagCode::NoKey => is_beyond(bytes, layer, KEYS, key_at(&place, index)),
        TagCode::NoValue => is_beyond(bytes, layer, VALUES, value_at(&place, index)),
        TagCode::Repeated => repeat_key(&place, index),
    }
}

/// The feature's tags are of an odd number, which is the index.
fn end_odd(feature: &FeatureMessage<'_>, index: usize) -> bool
    ensures { (feature_record : FeatureRecord) → IsFeatureAt feature.now feature_record
        → (IsTrue result ↔ OddTags feature_record.tags index) }
{
    !is_even(index) && end_at(feature, index)
}

/// There is a tag, and it is at or above the number of the payloads that the layer with an ordinal
/// has of a field number.
fn is_beyond(bytes: &[u8], layer: usize, field_number: u32, tag: Option<u32>) -> bool
    ensures { (outer : Span) (entries : List Entry) → IsScope bytes.now (Layer layer) outer
        → IsMessageAt bytes.now outer entries → (IsTrue result ↔ ((own : ℕ)
        × (tag ≡ Some own) × (length (spans_of field_number entries) ≤ own))) }
{
    match tag {
        Some(own) => part_of_layer(bytes, layer, field_number, own as usize).is_none(),
        None => false,
    }
}

/// In a list of pairs, the number there is the index of a key, and an earlier pair has the same
/// key.
fn repeat_key(feature: &FeatureMessage<'_>, index: usize) -> bool
    ensures { (feature_record : FeatureRecord) → IsFeatureAt feature.now feature_record
        → (IsTrue result ↔ KeyAgain feature_record.tags index) }
{
    match key_at(feature, index) {
        Some(key) => occurs_earlier(feature, key, index),
        None => false,
    }
}

/// The number at a place, if that is the index of a key in a list of pairs.
fn key_at(feature: &FeatureMessage<'_>, index: usize) -> Option<u32>
    ensures { (feature_record : FeatureRecord) (key : ℕ)
        → IsFeatureAt feature.now feature_record →
        (result ≡ Some key ↔ IsKeyAt feature_record.tags index key) }
{
    if !is_even(index) {
        return None;
    }
    tag_of_pairs(feature, index)
}

/// The number at a place, if that is the index of a value in a list of pairs.
fn value_at(feature: &FeatureMessage<'_>, index: usize) -> Option<u32>
    ensures { (feature_record : FeatureRecord) (value : ℕ)
        → IsFeatureAt feature.now feature_record →
        (result ≡ Some value ↔ IsValueAt feature_record.tags index value) }
{
    if is_even(index) {
        return None;
    }
    tag_of_pairs(feature, index)
}

/// The number at a place of a list of pairs.
fn tag_of_pairs(feature: &FeatureMessage<'_>, index: usize) -> Option<u32>
    ensures { (feature_record : FeatureRecord) (number : ℕ)
        → IsFeatureAt feature.now feature_record →
        (result ≡ Some number ↔ (((pairs : ℕ) × (length feature_record.tags ≡ 2 * pairs))
        × (slice_get feature_record.tags index ≡ Some number))) }
{
    if !are_pairs(feature) {
        return None;
    }
    let mut numbers = tags_from(feature, index)?;
    next_number(&mut numbers)
}

/// The tags are pairs.
fn are_pairs(feature: &FeatureMessage<'_>) -> bool
    ensures { (feature_record : FeatureRecord) → IsFeatureAt feature.now feature_record →
        (IsTrue result ↔ ((pairs : ℕ) × (length feature_record.tags ≡ 2 * pairs))) }
{
    let mut numbers = feature.tags();
    let mut pairs = true;
    'walk: while let Some(_) = next_number(&mut numbers) {
        pairs = !pairs;
    }
    pairs
}

/// There are as many tags as the index says.
fn end_at(feature: &FeatureMessage<'_>, index: usize) -> bool
    ensures { (feature_record : FeatureRecord) → IsFeatureAt feature.now feature_record
        → (IsTrue result ↔ (length feature_record.tags ≡ index)) }
{
    match tags_from(feature, index) {
        Some(mut numbers) => next_number(&mut numbers).is_none(),
        None => false,
    }
}

/// The number occurs at an even place before the index.
fn occurs_earlier(feature: &FeatureMessage<'_>, key: u32, index: usize) -> bool
    ensures { (feature_record : FeatureRecord) → IsFeatureAt feature.now feature_record →
        (IsTrue result ↔ ((pair : ℕ) × (2 * pair < index)
        × (slice_get feature_record.tags (2 * pair) ≡ Some key))) }
{
    let mut numbers = feature.tags();
    'walk: for place in 0..index {
        let Some(number) = next_number(&mut numbers) else {
            return false;
        };
        if is_key(number, place, key) {
            return true;
        }
    }
    false
}

/// A walk over the tags from the index on, or None where there are fewer.
fn tags_from<'a>(feature: &FeatureMessage<'a>, index: usize) -> Option<Numbers<'a>>
    ensures there { IfSome result (λ numbers. (feature_record : FeatureRecord)
        → IsFeatureAt feature.now feature_record →
        HasPassed feature_record.tags numbers index) }
    ensures none { IfNone result ((feature_record : FeatureRecord)
        → IsFeatureAt feature.now feature_record
        → length feature_record.tags < index) }
{
    let mut numbers = feature.tags();
    'walk: for _ in 0..index {
        let Some(_) = next_number(&mut numbers) else {
            return None;
        };
    }
    Some(numbers)
}

/// A number at a place of a list of pairs is the index of a key, and this one.
fn is_key(number: u32, place: usize, key: u32) -> bool
    ensures { IsTrue result ↔ (((pair : ℕ) × (place ≡ 2 * pair)) × (number ≡ key)) }
{
    is_even(place) && number == key
}

/// The number is even.
fn is_even(number: usize) -> bool
    ensures { IsTrue result ↔ ((half : ℕ) × (number ≡ 2 * half)) }
{
    number % 2 == 0
}
