//! Faults that rings have of their own.
ghost use Rattle.std.specs.Prelude.{ℕ, ◌<◌, ◌↔◌, length, IfNone, IfSome, IsTrue};
ghost use Rattle.mvt_plane.specs.Calls.Rings.{IsClosed};
ghost use Rattle.mvt_sweep.specs.Rings.{rings_of};
ghost use Rattle.mvt_polygon.specs.RingFault.{IsFirstRingFault};
ghost use Rattle.mvt_rules.specs.Ring.{ArePolygonRings, BreaksRings};
ghost use Rattle.mvt_polygon.specs.Calls.Rings.{IsLeastCode};

use mvt_fault::RingCode;
use mvt_plane::{Point, twice_area};

/// A ring with a fault of its own.
#[derive(Clone, Copy, Debug, PartialEq, Eq)]
pub struct RingFault {
    /// The cause.
    pub code: RingCode,
    /// The ordinal of the ring in the slice, counted from 0.
    pub ring: usize,
}

/// The first ring of a feature that has a fault of its own, and of its faults the one of least
/// code; None where the rings are those of polygons: no ring's last position is its first one, each
/// has an area, and the first one is an exterior (Mapbox Vector Tile Specification 2.1, section
/// 4.3.4.4). It takes no memory.
pub fn check_rings(rings: &[Vec<Point>]) -> Option<RingFault>
    ensures none { IfNone result (ArePolygonRings (rings_of rings.now)) }
    ensures least { IfSome result (IsFirstRingFault (rings_of rings.now)) }
{
    for ring in 0..rings.len() {
        if let Some(code) = fault_of_ring(rings, ring) {
            return Some(RingFault { code, ring });
        }
    }
    None
}

/// The fault of least code that one of the rings has.
fn fault_of_ring(rings: &[Vec<Point>], ring: usize) -> Option<RingCode>
    requires { ring < length rings.now }
    ensures none { IfNone result ((code : ℕ) → ¬ BreaksRings (rings_of rings.now) code ring) }
    ensures least { IfSome result (IsLeastCode (rings_of rings.now) ring) }
{
    let vertices = &rings[ring];
    if is_closed(vertices) {
        return Some(RingCode::EndsAtItsBeginning);
    }
    let area = twice_area(vertices);
    if area == 0 {
        return Some(RingCode::NoArea);
    }
    if ring == 0 && area < 0 {
        return Some(RingCode::BeginsWithHole);
    }
    None
}

/// Whether the last vertex is at the position of the first one. A ring of no vertices has neither.
fn is_closed(vertices: &[Point]) -> bool
    ensures { IsTrue result ↔ IsClosed vertices.now }
{
    let (Some(first), Some(last)) = (vertices.first(), vertices.last()) else {
        return false;
    };
    first == last
}
