//! A feature of a tile in one walk: its fields, its tags and a further rule (Mapbox Vector Tile
//! Specification 2.1, sections 4.2 and 4.4).
ghost use Rattle.std.specs.Prelude.{◌≤◌, IfOk, IsTrue};
ghost use Rattle.mvt_wire.specs.Embedded.{span_in};
ghost use Rattle.mvt_rules.specs.Tile.{FeatureRecord};
ghost use Rattle.mvt_tile.specs.FeatureBytes.{Encodes};
ghost use Rattle.mvt_tile.specs.Calls.OneWalk.{IsRightFeature};

use super::tags::tags_pass;
use crate::feature_bytes::FeatureBytes;
use crate::rules::{FeatureBuffer, TagNeeds};
use mvt_wire::Part;
use std::alloc::AllocError;

/// What is required of each feature of a tile beyond its tags. It may require less the more features
/// it has seen, as that one of them is looked at later.
pub trait FeatureTest {
    // the feature keeps the rule, as far as it is required now
    ghost IsKept: { Self → FeatureRecord → Type 0 };

    /// Whether a feature is known to keep the rule. False may be said of any feature.
    fn keeps(&mut self, feature: &FeatureBytes<'_>) -> bool
        ensures kept { IsTrue result → (feature_record : FeatureRecord)
            → Encodes feature.now feature_record → IsKept self.new feature_record }
        ensures still { (feature_record : FeatureRecord) → IsKept self.old feature_record
            → IsKept self.new feature_record };
}

/// Whether the feature that a part of the bytes holds is known to have no wire fault, and tags
/// without fault in a layer that has as many keys and values as they need, and at most so many; and
/// to keep the further rule. Adds what the tags need. The only error is that memory was refused.
pub(crate) fn passes_feature<T: FeatureTest>(
    part: Part<'_>,
    test: &mut T,
    buffer: &mut FeatureBuffer,
    most: usize,
    needs: &mut TagNeeds,
) -> Result<bool, AllocError>
    ensures no_fewer_keys { needs.old.keys ≤ needs.new.keys }
    ensures no_fewer_values { needs.old.values ≤ needs.new.values }
    ensures right { IfOk result (λ passes. IsTrue passes → IsRightFeature (T.IsKept test.new)
        part.entry.bytes.now most needs.new (span_in part.entry)) }
    ensures still { (feature_record : FeatureRecord) → T.IsKept test.old feature_record
        → T.IsKept test.new feature_record }
{
    let Some(feature) = FeatureBytes::scan(part) else {
        return Ok(false);
    };
    if !tags_pass(&feature, buffer, most, needs)? {
        return Ok(false);
    }
    Ok(test.keeps(&feature))
}
