//! The laws of edges that pass below a position (section 4.3.4.4).

ghost use Rattle.std.specs.Prelude.{◌≡◌, ◌↔◌, ℕ, List, slice_get, Some};
ghost use Rattle.mvt_plane.specs.Geometry.Apart.{IsClearOf};
ghost use Rattle.mvt_plane.specs.Geometry.Below.{HasOddBelow, IsDirectlyBelow};
ghost use Rattle.mvt_plane.specs.Geometry.Inside.{IsInside};
ghost use Rattle.mvt_plane.specs.Position.{Position, IsPosition};
ghost use Rattle.mvt_plane.specs.Geometry.RationalPoint.{LiesOn, whole};
ghost use Rattle.mvt_plane.specs.Geometry.Ring.{edges};
ghost use Rattle.mvt_plane.specs.declared.geometry.edge.Edge.{Edge};

/// A position in range that lies on no edge of a ring is inside it exactly where an odd number of
/// the ring's edges pass below it.
pub fn inside_by_edges_below()
    ensures { (position : Position) (ring : List Position) → IsPosition position →
        ((number : ℕ) (vertex : Position) → slice_get ring number ≡ Some vertex
        → IsPosition vertex) →
        ((number : ℕ) (edge : Edge) → slice_get (edges ring) number ≡ Some edge
        → ¬ LiesOn (whole position) edge) →
        IsInside position ring ↔ HasOddBelow position ring }
{}

/// Where an edge is directly below a position, and has nothing in common with a ring on which the
/// position doesn't lie, an odd number of the ring's edges pass below the position exactly where
/// they do below the edge's first end. All positions are in range.
pub fn odd_as_below_the_edge()
    ensures { (position : Position) (edge : Edge) (ring : List Position) → IsPosition position
        → IsPosition edge.a → IsPosition edge.b →
        ((number : ℕ) (vertex : Position) → slice_get ring number ≡ Some vertex
        → IsPosition vertex) →
        ((number : ℕ) (other : Edge) → slice_get (edges ring) number ≡ Some other
        → ¬ LiesOn (whole position) other) →
        IsClearOf edge ring → IsDirectlyBelow position edge ring
        → HasOddBelow position ring ↔ HasOddBelow edge.a ring }
{}
