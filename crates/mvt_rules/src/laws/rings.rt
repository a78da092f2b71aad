//! The laws of rings and polygons (Mapbox Vector Tile Specification 2.1, section 4.3.4.4).

ghost use Rattle.std.specs.Prelude.{◌≡◌, ◌↔◌, ℕ, ◌+◌, ◌-◌, ◌<◌, ◌≤◌, List, length, slice_get, Some};
ghost use Rattle.mvt_rules.specs.Meeting.{IsEdgeOf, IsShared, MeetsWrongly};
ghost use Rattle.mvt_fault.specs.declared.ring.RingEdge.{RingEdge};
ghost use Rattle.mvt_rules.specs.Nesting.{IsOutside, IsInHole};
ghost use Rattle.mvt_rules.specs.Parts.Rings.{part_of, within_part, in_whole};
ghost use Rattle.mvt_rules.specs.Polygon.{PolygonRings, IsPolygon, IsRingOf};
ghost use Rattle.mvt_plane.specs.Position.{Position};
ghost use Rattle.mvt_plane.specs.Geometry.RationalPoint.{RationalPoint};
ghost use Rattle.mvt_rules.specs.Ring.{ArePolygonRings};
ghost use Rattle.mvt_plane.specs.declared.geometry.edge.Edge.{Edge};

/// Two edges that meet wrongly do so in either order.
pub fn meets_either_way()
    ensures { (rings : List (List Position)) (first second : RingEdge) (point : RationalPoint) →
        MeetsWrongly rings first second point → MeetsWrongly rings second first point }
{}

/// Two edges of a ring of three vertices or more share at most one of them.
pub fn one_shared_vertex()
    ensures { (rings : List (List Position)) (first second : RingEdge) (ring : List Position)
        (vertex other : Position) →
        slice_get rings first.ring ≡ Some ring → 2 < length ring
        → IsShared rings first second vertex →
        IsShared rings first second other → vertex ≡ other }
{}

/// Where the rings of a feature have no fault of their own, each belongs to just one polygon; a
/// polygon of each number has just one place among the rings.
pub fn one_polygon_a_ring()
    ensures some { (rings : List (List Position)) (ring : ℕ) → ArePolygonRings rings
        → ring < length rings →
        (polygon : ℕ) × (polygon_rings : PolygonRings) × IsPolygon rings polygon polygon_rings
        × IsRingOf polygon_rings ring }
    ensures alone { (rings : List (List Position)) (ring polygon other : ℕ)
        (polygon_rings other_rings : PolygonRings) →
        IsPolygon rings polygon polygon_rings → IsRingOf polygon_rings ring
        → IsPolygon rings other other_rings → IsRingOf other_rings ring
        → (polygon ≡ other) × (polygon_rings ≡ other_rings) }
    ensures numbered { (rings : List (List Position)) (polygon : ℕ)
        (polygon_rings other_rings : PolygonRings) →
        IsPolygon rings polygon polygon_rings → IsPolygon rings polygon other_rings
        → polygon_rings ≡ other_rings }
{}

/// Where some of the rings, from one up to another, are handed on alone, their numbers begin with
/// 0. What is said of the part is said of the whole, with the number of the part's first ring added
/// to those of rings.
pub fn a_part_of_rings()
    ensures count { (rings : List (List Position)) (polygon_rings : PolygonRings)
        → polygon_rings.after ≤ length rings
        → length (part_of rings polygon_rings) ≡ polygon_rings.after - polygon_rings.exterior }
    ensures ring { (rings : List (List Position)) (polygon_rings : PolygonRings) (ring : ℕ)
        → ring < polygon_rings.after - polygon_rings.exterior →
        slice_get (part_of rings polygon_rings) ring
        ≡ slice_get rings (polygon_rings.exterior + ring) }
    ensures edge { (rings : List (List Position)) (polygon_rings : PolygonRings)
        (number : RingEdge) (edge : Edge)
        → number.ring < polygon_rings.after - polygon_rings.exterior →
        IsEdgeOf (part_of rings polygon_rings) number edge
        ↔ IsEdgeOf rings (in_whole polygon_rings.exterior number) edge }
    ensures shared { (rings : List (List Position)) (polygon_rings : PolygonRings)
        (first second : RingEdge) (vertex : Position) →
        first.ring < polygon_rings.after - polygon_rings.exterior
        → second.ring < polygon_rings.after - polygon_rings.exterior →
        IsShared (part_of rings polygon_rings) first second vertex
        ↔ IsShared rings (in_whole polygon_rings.exterior first)
        (in_whole polygon_rings.exterior second) vertex }
    ensures meeting { (rings : List (List Position)) (polygon_rings : PolygonRings)
        (first second : RingEdge) (point : RationalPoint) →
        first.ring < polygon_rings.after - polygon_rings.exterior
        → second.ring < polygon_rings.after - polygon_rings.exterior →
        MeetsWrongly (part_of rings polygon_rings) first second point
        ↔ MeetsWrongly rings (in_whole polygon_rings.exterior first)
        (in_whole polygon_rings.exterior second) point }
    ensures outside { (rings : List (List Position)) (polygon_rings : PolygonRings)
        (ring vertex : ℕ) →
        IsOutside (part_of rings polygon_rings) (within_part polygon_rings) ring vertex
        ↔ IsOutside rings polygon_rings (polygon_rings.exterior + ring) vertex }
    ensures in_hole { (rings : List (List Position)) (polygon_rings : PolygonRings)
        (ring vertex other : ℕ) →
        IsInHole (part_of rings polygon_rings) (within_part polygon_rings) ring vertex other
        ↔ IsInHole rings polygon_rings (polygon_rings.exterior + ring) vertex
        (polygon_rings.exterior + other) }
    ensures numbered { (polygon_rings : PolygonRings) (ring : ℕ) → IsRingOf polygon_rings ring →
        (own : ℕ) × (own < polygon_rings.after - polygon_rings.exterior)
        × (ring ≡ polygon_rings.exterior + own) }
{}
