//! Polygons of a feature that are inside each other (Mapbox Vector Tile Specification 2.1, section
//! 4.3.4.4). They are wrong only by a profile that keeps a feature's polygons apart.

ghost use Rattle.std.specs.Prelude.{◌↔◌, IsTrue, ℕ, suc, ◌∷◌, List, drop, IfNone, IfSome};
ghost use Rattle.mvt_confirm.specs.Calls.Apart.{StandAtPolygon};
ghost use Rattle.mvt_confirm.specs.Calls.Vertices.{RingsLeft};
ghost use Rattle.mvt_confirm.specs.Calls.FeatureMessage.{DrawsRings};
ghost use Rattle.mvt_rules.specs.PolygonFault.{IsVertexInPolygonBy};
ghost use Rattle.mvt_fault.specs.declared.profile.Profile.TheVariants.{Feature};
ghost use Rattle.mvt_plane.specs.Geometry.Inside.{IsInside};
ghost use Rattle.mvt_rules.specs.Nesting.{IsVertexOf, IsInHoles, IsInsidePolygon};
ghost use Rattle.mvt_rules.specs.Polygon.{PolygonRings, IsPolygon};
ghost use Rattle.mvt_plane.specs.Position.{Position};
ghost use Rattle.mvt_rules.specs.Ring.{ArePolygonRings};

use crate::crossings::Crossings;
use crate::feature_message::FeatureMessage;
use crate::polygons::are_polygon_rings;
use crate::ring_edges::{edge_at, edges_of_ring};
use crate::rings::next_ring;
use crate::vertices::Vertices;
use mvt_fault::Profile;
use mvt_plane::Point;

/// Whether the profile keeps the polygons of a feature apart, and the vertex with this ordinal, of
/// the exterior of this polygon, is inside another polygon, which has this other ordinal, of a
/// feature that draws rings.
pub(crate) fn is_vertex_in_polygon(
    profile: Profile,
    feature: &FeatureMessage,
    polygon: usize,
    vertex: usize,
    other: usize,
) -> bool
    ensures { (rings : List (List Position)) → DrawsRings feature.now rings
        → (IsTrue result ↔ IsVertexInPolygonBy profile rings polygon vertex other) }
{
    match profile {
        Profile::Polygon => false,
        Profile::Feature => is_vertex_in_another(feature, polygon, vertex, other),
    }
}

/// Whether the vertex with this ordinal, of the exterior of this polygon, is inside another
/// polygon, which has this other ordinal, of a feature that draws rings.
fn is_vertex_in_another(
    feature: &FeatureMessage,
    polygon: usize,
    vertex: usize,
    other: usize,
) -> bool
    ensures { (rings : List (List Position)) → DrawsRings feature.now rings
        → (IsTrue result ↔ IsVertexInPolygonBy Feature rings polygon vertex other) }
{
    if polygon == other || !are_polygon_rings(feature.vertices()) {
        return false;
    }
    match vertex_of_exterior(feature, polygon, vertex) {
        Some(position) => is_in_polygon(feature, position, other),
        None => false,
    }
}

/// The vertex with this ordinal, of the exterior of this polygon; None where there is no such
/// vertex.
fn vertex_of_exterior(feature: &FeatureMessage, polygon: usize, vertex: usize) -> Option<Point>
    ensures there { IfSome result (λ position. (rings : List (List Position))
        → DrawsRings feature.now rings → ArePolygonRings rings
        → (polygon_rings : PolygonRings) × IsPolygon rings polygon polygon_rings
        × IsVertexOf rings polygon_rings.exterior vertex position) }
    ensures none { IfNone result ((rings : List (List Position)) (polygon_rings : PolygonRings)
        (position : Position) → DrawsRings feature.now rings → ArePolygonRings rings
        → IsPolygon rings polygon polygon_rings
        → ¬ IsVertexOf rings polygon_rings.exterior vertex position) }
{
    let mut ahead = feature.vertices();
    let mut vertices = feature.vertices();
    if !pass_to_polygon(&mut ahead, &mut vertices, polygon) {
        return None;
    }
    let walk = edges_of_ring(vertices, 0)?;
    Some(edge_at(walk, vertex)?.a)
}

/// Whether a position is inside the polygon with this ordinal: inside its exterior, and inside none
/// of its holes.
fn is_in_polygon(feature: &FeatureMessage, position: Point, polygon: usize) -> bool
    ensures { (rings : List (List Position)) → DrawsRings feature.now rings
        → ArePolygonRings rings →
        (IsTrue result ↔ ((polygon_rings : PolygonRings) × IsPolygon rings polygon polygon_rings
        × IsInsidePolygon rings polygon_rings position)) }
{
    let mut ahead = feature.vertices();
    let mut vertices = feature.vertices();
    if !pass_to_polygon(&mut ahead, &mut vertices, polygon) {
        return false;
    }
    is_in_next_ring(&mut vertices, position) && !is_in_holes(ahead, vertices, position)
}

/// Goes up to the polygon with this ordinal, by two walks over the same rings: one ends after the
/// polygon's exterior, the other in front of it. False where there are fewer polygons.
///
/// The walk that is ahead measures a ring, so that it is known whether that is an exterior before
/// the other walk goes over it.
fn pass_to_polygon(ahead: &mut Vertices, vertices: &mut Vertices, polygon: usize) -> bool
    ensures there { IsTrue result → (rings : List (List Position)) → RingsLeft ahead.old rings
        → RingsLeft vertices.old rings → ArePolygonRings rings
        → StandAtPolygon rings polygon ahead.new vertices.new }
    ensures none { ¬ IsTrue result → (rings : List (List Position)) (polygon_rings : PolygonRings)
        → RingsLeft ahead.old rings → RingsLeft vertices.old rings
        → ¬ IsPolygon rings polygon polygon_rings }
{
    // How many polygons come before it.
    let mut before = polygon;
    'rings: while let Some(measure) = next_ring(ahead) {
        if measure.doubled_area > 0 {
            if before == 0 {
                return true;
            }
            before -= 1;
        }
        if next_ring(vertices).is_none() {
            return false;
        }
    }
    false
}

/// Whether a position is inside one of the holes that come next, up to an exterior or to the last
/// ring. Both walks are in front of the same rings: one measures a ring, and then the other tests
/// it.
fn is_in_holes(mut ahead: Vertices, mut vertices: Vertices, position: Point) -> bool
    ensures { (rings : List (List Position)) (polygon : ℕ) (polygon_rings : PolygonRings)
        → IsPolygon rings polygon polygon_rings
        → RingsLeft ahead.entry (drop (suc polygon_rings.exterior) rings)
        → RingsLeft vertices.entry (drop (suc polygon_rings.exterior) rings)
        → (IsTrue result ↔ IsInHoles rings polygon_rings position) }
{
    'holes: while let Some(measure) = next_ring(&mut ahead) {
        if measure.doubled_area > 0 {
            return false;
        }
        if is_in_next_ring(&mut vertices, position) {
            return true;
        }
    }
    false
}

/// Goes over the next ring, and says whether a position is inside it.
fn is_in_next_ring(vertices: &mut Vertices, position: Point) -> bool
    ensures { (ring : List Position) (rest : List (List Position))
        → RingsLeft vertices.old (ring ∷ rest)
        → (IsTrue result ↔ IsInside position ring) × RingsLeft vertices.new rest }
{
    let Some(vertex) = vertices.next_vertex() else {
        return false;
    };
    let first = vertex.point;
    let mut last = first;
    let mut is_over = vertex.is_last;
    let mut crossings = Crossings::new();
    'vertices: while !is_over {
        let Some(vertex) = vertices.next_vertex() else {
            return false;
        };
        crossings.pass(position, last, vertex.point);
        last = vertex.point;
        is_over = vertex.is_last;
    }
    crossings.pass(position, last, first);
    crossings.is_odd()
}
