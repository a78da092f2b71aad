//! What the definitions of geometry say of known rings. Each of these statements is one that a slip
//! in a definition would make false: a strict bound for a weak one, a neighbour by position, the
//! wrong shared vertex, a hole compared with itself, a polygon numbered from 1.

ghost use Rattle.std.specs.Prelude.{ℕ, [], ◌∷◌};
ghost use Rattle.mvt_plane.specs.Geometry.Examples.{fraction, triangle, square};
ghost use Rattle.mvt_rules.specs.Laws.Examples.{ring_edge, rings_from, two_polygons, crossed, spike, touched, pinched, touching_hole, hole_beside, hole_in_hole, island_in_hole, closed_twice, flat};
ghost use Rattle.mvt_rules.specs.Meeting.{MeetsWrongly};
ghost use Rattle.mvt_rules.specs.Nesting.{IsOutside, IsInHole};
ghost use Rattle.mvt_rules.specs.Polygon.{PolygonRings, IsPolygon};
ghost use Rattle.mvt_plane.specs.Geometry.RationalPoint.{RationalPoint};
ghost use Rattle.mvt_rules.specs.Ring.{EndsAtItsBeginning, HasNoArea, BeginsWithHole, ArePolygonRings};

/// A ring that ends where it begins, one with no area, and a hole that comes first.
pub fn rings_with_faults()
    ensures closed_twice { EndsAtItsBeginning (closed_twice ∷ []) 0 }
    ensures flat { HasNoArea (square ∷ flat ∷ []) 1 }
    ensures hole { BeginsWithHole (hole_beside ∷ []) 0 }
    ensures hole_after { (number : ℕ) → ¬ BeginsWithHole (square ∷ hole_beside ∷ []) number }
    ensures empty { (number : ℕ) → ¬ EndsAtItsBeginning ([] ∷ []) number }
    ensures empty_area { HasNoArea ([] ∷ []) 0 }
    ensures none { ArePolygonRings two_polygons }
{}

/// Polygons are numbered from 0, and each has the holes up to the next exterior, which may be in
/// one of them.
pub fn polygons()
    ensures first { IsPolygon two_polygons 0 (rings_from 0 1) }
    ensures second { IsPolygon two_polygons 1 (rings_from 1 3) }
    ensures no_third { (polygon_rings : PolygonRings) → ¬ IsPolygon two_polygons 2 polygon_rings }
    ensures of_no_hole { (polygon after : ℕ)
        → ¬ IsPolygon two_polygons polygon (rings_from 2 after) }
    ensures cut_short { ¬ IsPolygon two_polygons 1 (rings_from 1 2) }
    ensures with_two_holes { IsPolygon hole_in_hole 0 (rings_from 0 3) }
    ensures island { IsPolygon island_in_hole 1 (rings_from 2 3) }
{}

/// Edges that cross, overlap or touch meet wrongly, neighbours too, and vertices at one position
/// don't make neighbours.
pub fn wrong_meetings()
    ensures crossing { MeetsWrongly (crossed ∷ []) (ring_edge 0 0) (ring_edge 0 2)
        (fraction 800 800 180) }
    ensures neighbours_overlap { MeetsWrongly (spike ∷ []) (ring_edge 0 0) (ring_edge 0 1)
        (fraction 5 0 1) }
    ensures vertex_on_edge { MeetsWrongly (touched ∷ []) (ring_edge 0 1) (ring_edge 0 3)
        (fraction 10 5 1) }
    ensures end_on_neighbour { MeetsWrongly (touched ∷ []) (ring_edge 0 1) (ring_edge 0 2)
        (fraction 10 5 1) }
    ensures vertices_at_one_position { MeetsWrongly (pinched ∷ []) (ring_edge 0 1)
        (ring_edge 0 4) (fraction 5 5 1) }
    ensures end_at_another_beginning { MeetsWrongly (pinched ∷ []) (ring_edge 0 1)
        (ring_edge 0 5) (fraction 5 5 1) }
    ensures rings_touch { MeetsWrongly (square ∷ touching_hole ∷ []) (ring_edge 0 3)
        (ring_edge 1 0) (fraction 0 5 1) }
    ensures one_ring_twice { MeetsWrongly (square ∷ square ∷ []) (ring_edge 0 0) (ring_edge 1 0)
        (fraction 5 0 1) }
    ensures corners_of_two_rings { MeetsWrongly (square ∷ square ∷ []) (ring_edge 0 0)
        (ring_edge 1 1) (fraction 10 0 1) }
{}

/// Neighbours that have just their shared vertex in common don't, and no edge meets itself.
pub fn rightful_meetings()
    ensures neighbours { (point : RationalPoint)
        → ¬ MeetsWrongly (triangle ∷ []) (ring_edge 0 0) (ring_edge 0 1) point }
    ensures neighbours_back { (point : RationalPoint)
        → ¬ MeetsWrongly (triangle ∷ []) (ring_edge 0 1) (ring_edge 0 0) point }
    ensures neighbours_round { (point : RationalPoint)
        → ¬ MeetsWrongly (triangle ∷ []) (ring_edge 0 0) (ring_edge 0 2) point }
    ensures opposite_edges { (point : RationalPoint)
        → ¬ MeetsWrongly (square ∷ []) (ring_edge 0 0) (ring_edge 0 2) point }
    ensures itself { (point : RationalPoint)
        → ¬ MeetsWrongly (square ∷ []) (ring_edge 0 0) (ring_edge 0 0) point }
{}

/// A hole beside its exterior, and one inside another hole; the exterior is no hole, nor is an
/// island in one, and no hole is inside itself.
pub fn nested_rings()
    ensures outside { IsOutside (square ∷ hole_beside ∷ []) (rings_from 0 2) 1 0 }
    ensures within { (ring vertex : ℕ) → ¬ IsOutside two_polygons (rings_from 1 3) ring vertex }
    ensures in_hole { IsInHole hole_in_hole (rings_from 0 3) 2 0 1 }
    ensures in_exterior { ¬ IsInHole hole_in_hole (rings_from 0 3) 2 0 0 }
    ensures in_itself { ¬ IsInHole hole_in_hole (rings_from 0 3) 2 0 2 }
    ensures around { ¬ IsInHole hole_in_hole (rings_from 0 3) 1 0 2 }
    ensures island { (vertex : ℕ) → ¬ IsInHole island_in_hole (rings_from 0 2) 2 vertex 1 }
    ensures of_exterior { (vertex : ℕ) → ¬ IsOutside hole_in_hole (rings_from 0 3) 0 vertex }
{}
