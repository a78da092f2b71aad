//! The tags of a feature in one walk (Mapbox Vector Tile Specification 2.1, section 4.4).
ghost use Rattle.std.specs.Prelude.{◌≤◌, ℕ, List, IfOk, IfSome, IsTrue};
ghost use Rattle.mvt_rules.specs.Tile.{FeatureRecord};
ghost use Rattle.mvt_tile.specs.FeatureBytes.{Encodes};
ghost use Rattle.mvt_tile.specs.Calls.OneWalk.{HasGoodTags};
ghost use Rattle.mvt_tile.specs.Calls.PassedTags.{AreGoodWith};

use crate::feature_bytes::FeatureBytes;
use crate::rules::{FeatureBuffer, KeyMarks, TagNeeds, next_tags};
use mvt_wire::NumberSource;
use std::alloc::AllocError;

/// Whether the tags of a feature are known to have no fault in a layer that has as many keys and values
/// as they need, and at most so many. Adds what they need. The only error is that memory was refused.
#[inline(always)]
pub(super) fn tags_pass(
    feature: &FeatureBytes<'_>,
    buffer: &mut FeatureBuffer,
    most: usize,
    needs: &mut TagNeeds,
) -> Result<bool, AllocError>
    ensures no_fewer_keys { needs.old.keys ≤ needs.new.keys }
    ensures no_fewer_values { needs.old.values ≤ needs.new.values }
    ensures tags { IfOk result (λ pass. IsTrue pass → (feature_record : FeatureRecord)
        → Encodes feature.now feature_record → HasGoodTags most needs.new feature_record) }
{
    if feature.has_no_tag() {
        return Ok(true);
    }
    let mut tags = feature.tags();
    let Some(own) = pass_tags(&mut buffer.marks, &mut tags, most)? else {
        return Ok(false);
    };
    needs.add(own);
    if own.keys > most || own.values > most {
        return Ok(false);
    }
    Ok(true)
}

/// What tags need of their layer, where they are pairs of a key and a value, and no key comes twice:
/// then they have no fault in a layer that has so many. None where a key is `most` or more, since the
/// marks of keys take memory for all lesser ones. `marks` is used again for each feature. The only
/// error is that memory was refused.
#[inline(always)]
fn pass_tags<N: NumberSource + Drop>(
    marks: &mut KeyMarks,
    tags: &mut N,
    most: usize,
) -> Result<Option<TagNeeds>, AllocError>
    ensures { IfOk result (λ found. IfSome found (λ needs. (given : List ℕ)
        → N.Leaves tags.old given → AreGoodWith needs given)) }
{
    marks.clear();
    let mut needs = TagNeeds::none();
    'pairs: while let Some((key, value)) = next_tags(tags) {
        let Some(value) = value else {
            return Ok(None);
        };
        if key as usize >= most {
            return Ok(None);
        }
        if !marks.insert(key)? {
            return Ok(None);
        }
        needs.add(TagNeeds::of(key, value));
    }
    Ok(Some(needs))
}
