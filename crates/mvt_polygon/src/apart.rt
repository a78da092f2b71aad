//! Vertices of a polygon's exterior that are inside another polygon of the feature.
ghost use Rattle.std.specs.Prelude.{ℕ, ◌<◌, ◌≤◌, ◌↔◌, length, IsTrue, IfNone, IfSome};
ghost use Rattle.mvt_polygon.specs.Apart.{IsApartFault, IsFirstApartFault, IsPolygonAround, IsFirstPolygonAround};
ghost use Rattle.mvt_rules.specs.Nesting.{IsInsidePolygon};
ghost use Rattle.mvt_rules.specs.Ring.{ArePolygonRings};
ghost use Rattle.mvt_polygon.specs.Polygons.{ArePolygons};
ghost use Rattle.mvt_sweep.specs.Rings.{rings_of};

use mvt_plane::{Point, inside};

/// A vertex of a polygon's exterior that is inside another polygon.
#[derive(Clone, Copy, Debug, PartialEq, Eq)]
pub struct ApartFault {
    /// The ordinal of the vertex in the exterior, counted from 0.
    pub vertex: usize,
    /// The ordinal of the other polygon in the feature, counted from 0.
    pub other: usize,
}

/// The first vertex of a polygon's exterior that is inside another polygon of the feature: inside
/// that one's exterior, and inside none of its holes. Where it is inside several, the first of them
/// is named. None where there is no such vertex. No ring has a fault of its own (`check_rings`),
/// `groups` is what the call of this name returns, and `polygon` is the ordinal of the polygon in
/// it. All vertices of the exterior are tested against the other polygons, so the work grows with
/// their number times that of all vertices. It takes no memory.
pub fn check_apart(
    rings: &[Vec<Point>],
    groups: &[(usize, usize)],
    polygon: usize,
) -> Option<ApartFault>
    requires sound { ArePolygonRings (rings_of rings.now) }
    requires listed { ArePolygons (rings_of rings.now) groups.now }
    requires there { polygon < length groups.now }
    ensures none { IfNone result ((vertex other : ℕ)
        → ¬ IsApartFault (rings_of rings.now) polygon vertex other) }
    ensures least { IfSome result (IsFirstApartFault (rings_of rings.now) polygon) }
{
    let (exterior, _) = groups[polygon];
    let vertices = &rings[exterior];
    for vertex in 0..vertices.len() {
        if let Some(other) = polygon_around(rings, groups, polygon, vertices[vertex]) {
            return Some(ApartFault { vertex, other });
        }
    }
    None
}

/// The first of the other polygons that the position is inside. Of two polygons of a feature each
/// has an exterior of its own, so they are told apart by their ordinals. `groups` and `polygon` are
/// as in `check_apart`. It takes no memory.
pub fn polygon_around(
    rings: &[Vec<Point>],
    groups: &[(usize, usize)],
    polygon: usize,
    position: Point,
) -> Option<usize>
    requires listed { ArePolygons (rings_of rings.now) groups.now }
    ensures none { IfNone result ((other : ℕ)
        → ¬ IsPolygonAround (rings_of rings.now) polygon position other) }
    ensures first { IfSome result (IsFirstPolygonAround (rings_of rings.now) polygon position) }
{
    for other in 0..groups.len() {
        let (exterior, after) = groups[other];
        if other != polygon && is_in_polygon(rings, exterior, after, position) {
            return Some(other);
        }
    }
    None
}

/// Whether the position is inside the polygon of these rings: inside its exterior, and inside none
/// of its holes. It takes no memory.
pub fn is_in_polygon(rings: &[Vec<Point>], exterior: usize, after: usize, position: Point) -> bool
    requires further { exterior < after }
    requires within { after ≤ length rings.now }
    ensures { IsTrue result ↔ IsInsidePolygon (rings_of rings.now)
        (record { exterior = exterior; after = after }) position }
{
    if !inside(position, &rings[exterior]) {
        return false;
    }
    for hole in exterior + 1..after {
        if inside(position, &rings[hole]) {
            return false;
        }
    }
    true
}
