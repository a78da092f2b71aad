//! Rings of a feature by their ordinals, and what keeps one from being a polygon's (Mapbox Vector
//! Tile Specification 2.1, section 4.3.4.4).

ghost use Rattle.std.specs.Prelude.{◌≡◌, ◌↔◌, ◌≤◌, ◌<◌, IsTrue, List, length, drop, slice_get, Some, IfNone, IfSome};
ghost use Rattle.mvt_confirm.specs.Calls.Vertices.{RingsLeft};
ghost use Rattle.mvt_confirm.specs.Calls.Rings.{IsMeasured};
ghost use Rattle.mvt_fault.specs.Code.{ring_code};
ghost use Rattle.mvt_plane.specs.Position.{Position};
ghost use Rattle.mvt_rules.specs.Ring.{BreaksRings};

use crate::rings::{Measure, next_ring};
use crate::vertices::Vertices;
use mvt_fault::RingCode;

/// Goes over so many rings; false where there are fewer.
pub(crate) fn pass_rings(vertices: &mut Vertices, count: usize) -> bool
    ensures passed { IsTrue result → (rings : List (List Position)) → RingsLeft vertices.old rings
        → (count ≤ length rings) × RingsLeft vertices.new (drop count rings) }
    ensures fewer { ¬ IsTrue result → (rings : List (List Position)) → RingsLeft vertices.old rings
        → length rings < count }
{
    'rings: for _ in 0..count {
        if next_ring(vertices).is_none() {
            return false;
        }
    }
    true
}

/// The doubled area of the ring with this ordinal, and whether it is closed; None where there are
/// fewer rings.
pub(crate) fn ring_at(mut vertices: Vertices, ring: usize) -> Option<Measure>
    ensures there { IfSome result (λ measure. (rings : List (List Position))
        → RingsLeft vertices.entry rings
        → (positions : List Position) × (slice_get rings ring ≡ Some positions)
        × IsMeasured positions measure) }
    ensures none { IfNone result ((rings : List (List Position)) → RingsLeft vertices.entry rings
        → length rings ≤ ring) }
{
    if pass_rings(&mut vertices, ring) {
        next_ring(&mut vertices)
    } else {
        None
    }
}

/// Whether the ring with this ordinal has the fault of this code.
pub(crate) fn breaks_rings(vertices: Vertices, code: RingCode, ring: usize) -> bool
    ensures { (rings : List (List Position)) → RingsLeft vertices.entry rings
        → (IsTrue result ↔ BreaksRings rings (ring_code code) ring) }
{
    let Some(measure) = ring_at(vertices, ring) else {
        return false;
    };
    match code {
        RingCode::EndsAtItsBeginning => measure.is_closed,
        RingCode::NoArea => measure.doubled_area == 0,
        RingCode::BeginsWithHole => ring == 0 && measure.doubled_area < 0,
    }
}
