//! Edges of polygons that meet where they may not (Mapbox Vector Tile Specification 2.1, section
//! 4.3.4.4).

ghost use Rattle.std.specs.Prelude.{◌≡◌, ◌↔◌, ◌≤◌, ℕ, IsTrue, List, length, slice_get, Some, IfNone, IfSome};
ghost use Rattle.mvt_confirm.specs.Calls.FeatureMessage.{DrawsRings};
ghost use Rattle.mvt_rules.specs.PolygonFault.{IsMeetingBy};
ghost use Rattle.mvt_rules.specs.Profiles.{IsKeptApart};
ghost use Rattle.mvt_rules.specs.Meeting.{ComesBefore, IsEdgeOf, MeetsWrongly};
ghost use Rattle.mvt_rules.specs.Polygon.{PolygonRings, IsPolygon, IsRingOf};
ghost use Rattle.mvt_plane.specs.Position.{Position};
ghost use Rattle.mvt_plane.specs.Geometry.RationalPoint.{IsBounded};
ghost use Rattle.mvt_rules.specs.Ring.{ArePolygonRings};
ghost use Rattle.mvt_plane.specs.declared.geometry.edge.Edge.{Edge};

use crate::edge_tests::{NumberedEdge, meets_in_order};
use crate::feature_message::FeatureMessage;
use crate::polygons::{are_polygon_rings, place_of_ring};
use crate::ring_edges::{edge_at, edges_of_ring};
use mvt_fault::{Profile, RingEdge};

/// Two edges by their ordinals, and the point where they are said to meet: it is (x / w, y / w), if
/// these numbers are in range.
#[derive(Clone, Copy)]
pub(crate) struct EdgeMeeting {
    pub(crate) first: RingEdge,
    pub(crate) second: RingEdge,
    pub(crate) x: i128,
    pub(crate) y: i128,
    pub(crate) w: i128,
}

/// An edge, and how many vertices its ring has.
#[derive(Clone, Copy)]
struct EdgeInRing {
    numbered: NumberedEdge,
    vertex_count: usize,
}

/// Whether two edges that the profile keeps apart, named in order, meet wrongly at this point, and
/// the second one is of this polygon, of a feature that draws rings. The numbers may be any.
pub(crate) fn is_meeting(
    profile: Profile,
    feature: &FeatureMessage,
    polygon: usize,
    meeting: EdgeMeeting,
) -> bool
    ensures { (rings : List (List Position)) → DrawsRings feature.now rings →
        (IsTrue result ↔ IsMeetingBy profile rings polygon meeting.first meeting.second
        (record { x = meeting.x; y = meeting.y; w = meeting.w })) }
{
    are_polygon_rings(feature.vertices())
        && is_ring_of_polygon(feature, polygon, meeting.second.ring)
        && is_kept_apart(profile, feature, polygon, meeting.first.ring)
        && do_meet(feature, meeting)
}

/// Whether the profile keeps the ring with this ordinal apart from those of this polygon, of rings
/// that have no fault of their own. It is asked only of rings that aren't after all of the
/// polygon's.
fn is_kept_apart(profile: Profile, feature: &FeatureMessage, polygon: usize, ring: usize) -> bool
    ensures { (rings : List (List Position)) (polygon_rings : PolygonRings) (last : ℕ)
        → DrawsRings feature.now rings → ArePolygonRings rings →
        IsPolygon rings polygon polygon_rings → IsRingOf polygon_rings last → ring ≤ last
        → (IsTrue result ↔ IsKeptApart profile polygon_rings ring) }
{
    match profile {
        Profile::Polygon => is_ring_of_polygon(feature, polygon, ring),
        Profile::Feature => true,
    }
}

/// Whether the ring with this ordinal belongs to this polygon, of rings that have no fault of their
/// own.
fn is_ring_of_polygon(feature: &FeatureMessage, polygon: usize, ring: usize) -> bool
    ensures { (rings : List (List Position)) → DrawsRings feature.now rings
        → ArePolygonRings rings →
        (IsTrue result ↔ ((polygon_rings : PolygonRings) × IsPolygon rings polygon polygon_rings
        × IsRingOf polygon_rings ring)) }
{
    match place_of_ring(feature.vertices(), ring) {
        Some(place) => place.polygon == polygon,
        None => false,
    }
}

/// Whether two edges, named in order, meet wrongly at this point.
fn do_meet(feature: &FeatureMessage, meeting: EdgeMeeting) -> bool
    ensures { (rings : List (List Position)) → DrawsRings feature.now rings → (IsTrue result
        ↔ (ComesBefore meeting.first meeting.second
        × IsBounded (record { x = meeting.x; y = meeting.y; w = meeting.w })
        × MeetsWrongly rings meeting.first meeting.second
        (record { x = meeting.x; y = meeting.y; w = meeting.w }))) }
{
    let Some(one) = edge_of_number(feature, meeting.first) else {
        return false;
    };
    let Some(other) = edge_of_number(feature, meeting.second) else {
        return false;
    };
    meets_in_order(
        &one.numbered,
        &other.numbered,
        one.vertex_count,
        meeting.x,
        meeting.y,
        meeting.w,
    )
}

/// The edge with these ordinals; None where there is no such edge.
fn edge_of_number(feature: &FeatureMessage, number: RingEdge) -> Option<EdgeInRing>
    ensures number { IfSome result (λ found. found.numbered.number ≡ number) }
    ensures there { IfSome result (λ found. (rings : List (List Position))
        → DrawsRings feature.now rings → IsEdgeOf rings number found.numbered.edge) }
    ensures count { IfSome result (λ found. (rings : List (List Position)) (ring : List Position)
        → DrawsRings feature.now rings
        → slice_get rings number.ring ≡ Some ring → length ring ≡ found.vertex_count) }
    ensures none { IfNone result ((rings : List (List Position)) (edge : Edge)
        → DrawsRings feature.now rings → ¬ IsEdgeOf rings number edge) }
{
    let walk = edges_of_ring(feature.vertices(), number.ring)?;
    let vertex_count = walk.count();
    let edge = edge_at(walk, number.edge)?;
    Some(EdgeInRing {
        numbered: NumberedEdge { number, edge },
        vertex_count,
    })
}
