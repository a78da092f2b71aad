//! The polygons that the rings of a feature are (Mapbox Vector Tile Specification 2.1, section
//! 4.3.4.4).

ghost use Rattle.std.specs.Prelude.{◌↔◌, ◌≤◌, IsTrue, List, length, IfNone, IfSome};
ghost use Rattle.mvt_confirm.specs.Calls.Vertices.{RingsLeft};
ghost use Rattle.mvt_confirm.specs.Calls.Polygons.{IsPlaceOf};
ghost use Rattle.mvt_plane.specs.Position.{Position};
ghost use Rattle.mvt_rules.specs.Ring.{ArePolygonRings};

use crate::rings::{Measure, next_ring};
use crate::vertices::Vertices;

/// Where a ring belongs.
#[derive(Clone, Copy)]
pub(crate) struct RingPlace {
    /// The ordinal of its polygon in the feature.
    pub(crate) polygon: usize,
    /// The ordinal of that polygon's exterior among all rings of the feature.
    pub(crate) exterior: usize,
}

/// Whether no ring has a fault of its own: whether the rings are those of polygons.
pub(crate) fn are_polygon_rings(mut vertices: Vertices) -> bool
    ensures { (rings : List (List Position)) → RingsLeft vertices.entry rings
        → (IsTrue result ↔ ArePolygonRings rings) }
{
    let mut is_first = true;
    'rings: while let Some(measure) = next_ring(&mut vertices) {
        if measure.is_closed || measure.doubled_area == 0 {
            return false;
        }
        if is_first && measure.doubled_area < 0 {
            return false;
        }
        is_first = false;
    }
    true
}

/// Where the ring with this ordinal belongs, of rings that have no fault of their own; None where
/// there are fewer rings.
pub(crate) fn place_of_ring(mut vertices: Vertices, ring: usize) -> Option<RingPlace>
    ensures there { IfSome result (λ place. (rings : List (List Position))
        → RingsLeft vertices.entry rings → ArePolygonRings rings
        → IsPlaceOf rings ring place) }
    ensures none { IfNone result ((rings : List (List Position)) → RingsLeft vertices.entry rings
        → ArePolygonRings rings → length rings ≤ ring) }
{
    // How many exteriors were passed, and the ordinal of the last one of them.
    let mut exteriors = 0;
    let mut last = 0;
    'rings: for number in 0..ring {
        if next_ring(&mut vertices)?.doubled_area > 0 {
            exteriors += 1;
            last = number;
        }
    }
    if next_ring(&mut vertices)?.doubled_area > 0 {
        return Some(RingPlace {
            polygon: exteriors,
            exterior: ring,
        });
    }
    Some(RingPlace {
        polygon: exteriors.checked_sub(1)?,
        exterior: last,
    })
}
