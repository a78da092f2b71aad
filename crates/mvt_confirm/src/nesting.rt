//! Holes that aren't where they should be (Mapbox Vector Tile Specification 2.1, section 4.3.4.4).

ghost use Rattle.std.specs.Prelude.{◌≡◌, ◌↔◌, IsTrue, List, slice_get, Some, IfNone, IfSome};
ghost use Rattle.mvt_confirm.specs.Calls.FeatureMessage.{DrawsRings};
ghost use Rattle.mvt_rules.specs.PolygonFault.{IsVertexInHole, IsVertexOutside};
ghost use Rattle.mvt_plane.specs.Geometry.Inside.{IsInside};
ghost use Rattle.mvt_rules.specs.Nesting.{IsVertexOf};
ghost use Rattle.mvt_rules.specs.Polygon.{PolygonRings, IsHoleOf, IsPolygon};
ghost use Rattle.mvt_plane.specs.Position.{Position};
ghost use Rattle.mvt_rules.specs.Ring.{ArePolygonRings};

use crate::feature_message::FeatureMessage;
use crate::polygons::{are_polygon_rings, place_of_ring};
use crate::ring_edges::{edge_at, edges_of_ring, odd_number_over};
use mvt_plane::Point;

/// Whether the vertex with this ordinal, of the ring with that one, is one of a hole of this
/// polygon and isn't inside its exterior, of a feature that draws rings.
pub(crate) fn is_vertex_outside(
    feature: &FeatureMessage,
    polygon: usize,
    ring: usize,
    vertex: usize,
) -> bool
    ensures { (rings : List (List Position)) → DrawsRings feature.now rings
        → (IsTrue result ↔ IsVertexOutside rings polygon ring vertex) }
{
    if !are_polygon_rings(feature.vertices()) {
        return false;
    }
    let Some(exterior) = exterior_round(feature, polygon, ring) else {
        return false;
    };
    let Some(position) = vertex_of(feature, ring, vertex) else {
        return false;
    };
    !is_inside(feature, position, exterior)
}

/// Whether the vertex with this ordinal, of the ring with that one, is one of a hole of this
/// polygon and inside another hole of it, which has this other ordinal, of a feature that draws
/// rings.
pub(crate) fn is_vertex_in_hole(
    feature: &FeatureMessage,
    polygon: usize,
    ring: usize,
    vertex: usize,
    other: usize,
) -> bool
    ensures { (rings : List (List Position)) → DrawsRings feature.now rings
        → (IsTrue result ↔ IsVertexInHole rings polygon ring vertex other) }
{
    if ring == other || !are_polygon_rings(feature.vertices()) {
        return false;
    }
    if !is_hole(feature, polygon, ring) || !is_hole(feature, polygon, other) {
        return false;
    }
    match vertex_of(feature, ring, vertex) {
        Some(position) => is_inside(feature, position, other),
        None => false,
    }
}

/// Whether the ring with this ordinal is a hole of this polygon, of rings that have no fault of
/// their own.
fn is_hole(feature: &FeatureMessage, polygon: usize, ring: usize) -> bool
    ensures { (rings : List (List Position)) → DrawsRings feature.now rings
        → ArePolygonRings rings →
        (IsTrue result ↔ ((polygon_rings : PolygonRings) × IsPolygon rings polygon polygon_rings
        × IsHoleOf polygon_rings ring)) }
{
    exterior_round(feature, polygon, ring).is_some()
}

/// The ordinal of the polygon's exterior, if the ring with this ordinal is one of its holes, of
/// rings that have no fault of their own.
fn exterior_round(feature: &FeatureMessage, polygon: usize, ring: usize) -> Option<usize>
    ensures there { IfSome result (λ exterior. (rings : List (List Position))
        → DrawsRings feature.now rings → ArePolygonRings rings
        → (polygon_rings : PolygonRings) × IsPolygon rings polygon polygon_rings
        × IsHoleOf polygon_rings ring × (polygon_rings.exterior ≡ exterior)) }
    ensures none { IfNone result ((rings : List (List Position)) (polygon_rings : PolygonRings)
        → DrawsRings feature.now rings → ArePolygonRings rings
        → IsPolygon rings polygon polygon_rings → ¬ IsHoleOf polygon_rings ring) }
{
    let place = place_of_ring(feature.vertices(), ring)?;
    if place.polygon == polygon && place.exterior != ring {
        Some(place.exterior)
    } else {
        None
    }
}

/// The vertex with this ordinal, of the ring with that one; None where there is no such vertex.
fn vertex_of(feature: &FeatureMessage, ring: usize, vertex: usize) -> Option<Point>
    ensures there { IfSome result (λ position. (rings : List (List Position))
        → DrawsRings feature.now rings → IsVertexOf rings ring vertex position) }
    ensures none { IfNone result ((rings : List (List Position)) (position : Position)
        → DrawsRings feature.now rings → ¬ IsVertexOf rings ring vertex position) }
{
    let walk = edges_of_ring(feature.vertices(), ring)?;
    Some(edge_at(walk, vertex)?.a)
}

/// Whether a position is inside the ring with this ordinal.
fn is_inside(feature: &FeatureMessage, position: Point, ring: usize) -> bool
    ensures { (rings : List (List Position)) (vertices : List Position)
        → DrawsRings feature.now rings → slice_get rings ring ≡ Some vertices
        → (IsTrue result ↔ IsInside position vertices) }
{
    match edges_of_ring(feature.vertices(), ring) {
        Some(walk) => odd_number_over(position, walk),
        None => false,
    }
}
