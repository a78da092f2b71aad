//! The laws of edges that pass over a position, and of edges that are counted or summed one after
//! another (section 4.3.4.4).

ghost use Rattle.std.specs.Prelude.{◌≡◌, ◌^◌, ◌↔◌, ◌++◌, List, [], ◌∷◌, ℤ, pos, ◌+ℤ◌, ◌≤ℤ◌, ◌<ℤ◌};
ghost use Rattle.mvt_plane.specs.Bound.{IsWithin};
ghost use Rattle.mvt_plane.specs.Geometry.Inside.{Differ, PassesOver, HoldsOfOdd};
ghost use Rattle.mvt_plane.specs.Geometry.Measure.{orientation};
ghost use Rattle.mvt_plane.specs.Position.{Position, IsPosition};
ghost use Rattle.mvt_plane.specs.Geometry.Ring.{edge_area, area_of_edges};
ghost use Rattle.mvt_plane.specs.declared.geometry.edge.Edge.{Edge};

/// An edge that goes to the right past a position's x passes over the position exactly where their
/// orientation is negative, one that goes to the left exactly where it is positive. One with both
/// ends on one side of the x doesn't.
pub fn passes_by_orientation()
    ensures rightward { (position : Position) (edge : Edge) → edge.a.x ≤ℤ position.x
        → position.x <ℤ edge.b.x →
        (orientation edge.a edge.b position <ℤ pos 0) ↔ PassesOver position edge }
    ensures leftward { (position : Position) (edge : Edge) → edge.b.x ≤ℤ position.x
        → position.x <ℤ edge.a.x →
        (pos 0 <ℤ orientation edge.a edge.b position) ↔ PassesOver position edge }
    ensures apart { (position : Position) (edge : Edge)
        → ((edge.a.x ≤ℤ position.x) ↔ (edge.b.x ≤ℤ position.x)) → ¬ PassesOver position edge }
{}

/// One more edge after others turns the parity of those that pass over a position where it does so
/// itself, and adds its part to their doubled area.
pub fn one_more_edge()
    ensures parity { (position : Position) (passed : List Edge) (edge : Edge) →
        HoldsOfOdd (PassesOver position) (passed ++ (edge ∷ []))
        ↔ Differ (HoldsOfOdd (PassesOver position) passed) (PassesOver position edge) }
    ensures area { (passed : List Edge) (edge : Edge)
        → area_of_edges (passed ++ (edge ∷ [])) ≡ area_of_edges passed +ℤ edge_area edge }
    ensures part { (edge : Edge) → IsPosition edge.a → IsPosition edge.b
        → IsWithin (2 ^ 61) (edge_area edge) }
{}
