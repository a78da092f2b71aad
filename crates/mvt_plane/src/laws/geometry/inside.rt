//! The laws of what is inside a ring (section 4.3.4.4): what has nothing in common with the ring is
//! inside as a whole, or not at all.

ghost use Rattle.std.specs.Prelude.{◌≡◌, ◌↔◌, ℕ, List, slice_get, Some};
ghost use Rattle.mvt_plane.specs.Geometry.Apart.{IsClearOf, HaveNothingInCommon};
ghost use Rattle.mvt_plane.specs.Geometry.Inside.{IsInside, IsPointInside};
ghost use Rattle.mvt_plane.specs.Position.{Position};
ghost use Rattle.mvt_plane.specs.Geometry.RationalPoint.{RationalPoint, LiesOn, whole};
ghost use Rattle.mvt_plane.specs.declared.geometry.edge.Edge.{Edge};

/// Where no edge of a ring has a point in common with an edge of another, all its vertices are
/// inside the other, or none is. So it is with the rational points of an edge that has none in
/// common with a ring, and positions are inside as the rational points that they are.
pub fn one_vertex_decides()
    ensures vertices { (ring other : List Position) → HaveNothingInCommon ring other
        → (vertex another : ℕ) (one two : Position) →
        slice_get ring vertex ≡ Some one → slice_get ring another ≡ Some two → IsInside one other
        → IsInside two other }
    ensures points { (edge : Edge) (ring : List Position) → IsClearOf edge ring
        → (point other : RationalPoint) →
        LiesOn point edge → LiesOn other edge → IsPointInside point ring
        → IsPointInside other ring }
    ensures whole { (position : Position) (ring : List Position)
        → IsPointInside (whole position) ring ↔ IsInside position ring }
{}
