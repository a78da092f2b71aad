ghost use Rattle.std.specs.Prelude.{IfOk};
ghost use Rattle.mvt_rules.specs.Tile.{FeatureRecord, IsFeature};
ghost use Rattle.mvt_wire.specs.Embedded.{Holds};
ghost use Rattle.mvt_tile.specs.View.{feature_of};

use crate::feature_bytes::FeatureBytes;
use crate::lists::list_of;
use crate::record::Feature;
use mvt_wire::Part;
use std::alloc::{AllocError, Global};

/// The feature that a part of the bytes holds (Mapbox Vector Tile Specification 2.1, section 4.2).
pub(crate) fn read_feature(alloc: Global, part: Part<'_>) -> Result<Feature, AllocError>
    requires { (feature : FeatureRecord) × Holds IsFeature part feature }
    ensures { IfOk result (λ feature. Holds IsFeature part.entry (feature_of feature)) }
{
    let feature = FeatureBytes::new(part);
    Ok(Feature {
        id: feature.id(),
        tags: list_of(alloc, feature.tags())?,
        kind: feature.kind(),
        geometry: list_of(alloc, feature.geometry())?,
    })
}
