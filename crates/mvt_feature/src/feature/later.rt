//! Vertices of polygons that are inside later polygons, whose edges may meet.
ghost use Rattle.std.specs.Prelude.{◌≡◌, ◌<◌, ◌≤◌, ℕ, IfNone, IfOk, IfSome, List, length, slice_get};
ghost use Rattle.mvt_plane.specs.Position.{Position};
ghost use Rattle.mvt_rules.specs.Ring.{ArePolygonRings};
ghost use Rattle.mvt_polygon.specs.Apart.{IsApartFault};
ghost use Rattle.mvt_sweep.specs.Bounds.{AreBoundsOf};
ghost use Rattle.mvt_feature.specs.Calls.Bounds.{AreNotIn, ComesNoLater, IsFirstVertexIn, IsFirstWith, IsSpread};
ghost use Rattle.mvt_feature.specs.Calls.FeatureParts.{IsFirstInLater, IsFirstLater, IsInNoLater, listed_at};
ghost use Rattle.mvt_polygon.specs.Polygons.{ArePolygons};
ghost use Rattle.mvt_sweep.specs.Rings.{rings_of, AreProperRings};

mod spread;

use super::{FeatureCause, FeatureFault};
use mvt_plane::Point;
use mvt_polygon::{ApartFault, is_in_polygon};
use mvt_sweep::Bounds;
use spread::Spread;
use std::alloc::{AllocError, Global};

/// The first of the polygons before `until` of whose exterior a vertex is inside a polygon from
/// `later` on. Polygons whose exteriors have bounds that are apart are passed over, most of them
/// without a check of their bounds; each other pair is checked, vertex by vertex.
pub(super) fn first_inside_later(
    alloc: Global,
    rings: &[Vec<Point>],
    polygons: &[(usize, usize)],
    later: usize,
    until: usize,
) -> Result<Option<FeatureFault>, AllocError>
    requires sound { ArePolygonRings (rings_of rings.now) }
    requires drawn { AreProperRings (rings_of rings.now) }
    requires listed { ArePolygons (rings_of rings.now) polygons.now }
    requires until { until ≤ later }
    requires later { later ≤ length polygons.now }
    ensures none { IfOk result (λ found. IfNone found ((polygon : ℕ) → polygon < until
        → IsInNoLater (rings_of rings.now) later polygon)) }
    ensures first { IfOk result (λ found.
        IfSome found (IsFirstLater (rings_of rings.now) later until)) }
{
    if later == polygons.len() {
        return Ok(None);
    }
    let spread = Spread::of(alloc, rings, polygons, later)?;
    for polygon in 0..until {
        if let Some(found) = vertex_in_later(rings, polygons, polygon, later, &spread) {
            let (exterior, after) = polygons[polygon];
            return Ok(Some(FeatureFault {
                polygon,
                exterior,
                after,
                cause: FeatureCause::Apart(found),
            }));
        }
    }
    Ok(None)
}

/// The first vertex of a polygon's exterior that is inside a polygon from `later` on, and the first
/// such polygon.
fn vertex_in_later(
    rings: &[Vec<Point>],
    polygons: &[(usize, usize)],
    polygon: usize,
    later: usize,
    spread: &Spread,
) -> Option<ApartFault>
    requires drawn { AreProperRings (rings_of rings.now) }
    requires listed { ArePolygons (rings_of rings.now) polygons.now }
    requires earlier { polygon < later }
    requires later { later ≤ length polygons.now }
    requires spread { IsSpread (rings_of rings.now) polygons.now later spread.now }
    ensures none { IfNone result (IsInNoLater (rings_of rings.now) later polygon) }
    ensures first { IfSome result (λ fault.
        IsFirstInLater (rings_of rings.now) later polygon fault.vertex fault.other) }
{
    let (exterior, _) = polygons[polygon];
    let own = Bounds::of(&rings[exterior]);
    let mut found = None;
    let mut at = spread.begun(own.right);
    // back from the last that doesn't begin beyond its right side, until none reaches its left side
    'back: while at > 0 && own.left <= spread.reaches[at - 1] {
        at -= 1;
        let (_, number) = spread.order[at];
        let its = &spread.bounds[number];
        if !own.are_apart(its) {
            found = first_with(rings, polygons, polygon, later + number, its, found);
        }
    }
    found
}

/// The first of the fault that was found, if there is one, and those of the polygon with one more
/// polygon, of whose exterior these are the bounds.
fn first_with(
    rings: &[Vec<Point>],
    polygons: &[(usize, usize)],
    polygon: usize,
    other: usize,
    bounds: &Bounds,
    found: Option<ApartFault>,
) -> Option<ApartFault>
    requires listed { ArePolygons (rings_of rings.now) polygons.now }
    requires earlier { polygon < other }
    requires other { other < length polygons.now }
    requires bounds { (exterior : List Position)
        → slice_get (rings_of rings.now) (listed_at polygons.now other).exterior ≡ Some exterior
        → AreBoundsOf exterior bounds.now }
    requires found { IfSome found (λ fault.
        IsApartFault (rings_of rings.now) polygon fault.vertex fault.other) }
    ensures { IsFirstWith (rings_of rings.now) polygon other found result }
{
    let (exterior, _) = polygons[polygon];
    let vertices = &rings[exterior];
    let until = first_after(found, other, vertices.len());
    match first_vertex_in(rings, &vertices[..until], polygons[other], bounds) {
        Some(vertex) => Some(ApartFault { vertex, other }),
        None => found,
    }
}

/// The vertex from which on a fault with this other polygon comes after the one that was found.
fn first_after(found: Option<ApartFault>, other: usize, vertices: usize) -> usize
    requires { IfSome found (λ fault. fault.vertex < vertices) }
    ensures within { result ≤ vertices }
    ensures none { IfNone found (result ≡ vertices) }
    ensures following { IfSome found (λ fault. (vertex : ℕ) → result ≤ vertex
        → ComesNoLater fault vertex other) }
    ensures before { IfSome found (λ fault. (vertex : ℕ) → vertex < result
        → ComesNoLater (record { vertex = vertex; other = other }) fault.vertex fault.other) }
{
    match found {
        Some(fault) => {
            if other < fault.other {
                fault.vertex + 1
            } else {
                fault.vertex
            }
        }
        None => vertices,
    }
}

/// The first of these vertices that is inside a polygon, of whose exterior these are the bounds.
fn first_vertex_in(
    rings: &[Vec<Point>],
    vertices: &[Point],
    polygon: (usize, usize),
    bounds: &Bounds,
) -> Option<usize>
    requires further { polygon.0 < polygon.1 }
    requires within { polygon.1 ≤ length rings.now }
    requires bounds { (exterior : List Position)
        → slice_get (rings_of rings.now) polygon.0 ≡ Some exterior
        → AreBoundsOf exterior bounds.now }
    ensures none { IfNone result (AreNotIn (rings_of rings.now)
        (record { exterior = polygon.0; after = polygon.1 }) vertices.now (length vertices.now)) }
    ensures first { IfSome result (IsFirstVertexIn (rings_of rings.now)
        (record { exterior = polygon.0; after = polygon.1 }) vertices.now) }
{
    for vertex in 0..vertices.len() {
        let position = vertices[vertex];
        if bounds.contain(position) && is_in_polygon(rings, polygon.0, polygon.1, position) {
            return Some(vertex);
        }
    }
    None
}
