//! What the definitions say of faults of known rings: each statement is one that a slip in a
//! definition would make false.

ghost use Rattle.std.specs.Prelude.{ℕ, [], ◌∷◌, ◌*◌, ◌^◌};
ghost use Rattle.mvt_rules.specs.Laws.Examples.{stone, hole, island, ground, rings_from, two_polygons, crossed, touching_hole, hole_beside, hole_in_hole, closed_twice, flat};
ghost use Rattle.mvt_rules.specs.Parts.ByPolygon.{IsMeeting, AreValidRings};
ghost use Rattle.mvt_rules.specs.PolygonFault.{IsMeetingBy, IsVertexOutside, IsVertexInHole, IsVertexInPolygonBy};
ghost use Rattle.mvt_rules.specs.Valid.{AreValidRingsBy};
ghost use Rattle.mvt_plane.specs.Geometry.Examples.{fraction, frame, square, triangle};
ghost use Rattle.mvt_fault.specs.declared.profile.Profile.TheVariants.{Feature};
ghost use Rattle.mvt_rules.specs.Nesting.{IsInPolygon};
ghost use Rattle.mvt_plane.specs.Geometry.RationalPoint.{RationalPoint};
ghost use Rattle.mvt_rules.specs.Ring.{BreaksRings};

/// A crossing is a meeting by any numbers of its point that are in range, in the order of its
/// edges, and in its polygon.
pub fn a_crossing()
    ensures shown { IsMeeting (crossed ∷ []) 0 (record { ring = 0; edge = 0 })
        (record { ring = 0; edge = 2 }) (fraction 800 800 180) }
    ensures reduced { IsMeeting (crossed ∷ []) 0 (record { ring = 0; edge = 0 })
        (record { ring = 0; edge = 2 }) (fraction 40 40 9) }
    ensures beside { ¬ IsMeeting (crossed ∷ []) 0 (record { ring = 0; edge = 0 })
        (record { ring = 0; edge = 2 }) (fraction 800 800 181) }
    ensures swapped { ¬ IsMeeting (crossed ∷ []) 0 (record { ring = 0; edge = 2 })
        (record { ring = 0; edge = 0 }) (fraction 800 800 180) }
    ensures other_polygon { (point : RationalPoint)
        → ¬ IsMeeting (crossed ∷ []) 1 (record { ring = 0; edge = 0 })
        (record { ring = 0; edge = 2 }) point }
    ensures out_of_range { ¬ IsMeeting (crossed ∷ []) 0 (record { ring = 0; edge = 0 })
        (record { ring = 0; edge = 2 }) (fraction (40 * 2 ^ 63) (40 * 2 ^ 63) (9 * 2 ^ 63)) }
    ensures no_point { ¬ IsMeeting (crossed ∷ []) 0 (record { ring = 0; edge = 0 })
        (record { ring = 0; edge = 2 }) (fraction 0 0 0) }
{}

/// The vertex between two neighbours is no meeting.
pub fn a_shared_vertex()
    ensures { ¬ IsMeeting (triangle ∷ []) 0 (record { ring = 0; edge = 0 })
        (record { ring = 0; edge = 1 }) (fraction 8 12 1) }
{}

/// A hole that touches its exterior is one; edges of two polygons may meet.
pub fn edges_of_two_rings()
    ensures touching { IsMeeting (square ∷ touching_hole ∷ []) 0 (record { ring = 0; edge = 3 })
        (record { ring = 1; edge = 0 }) (fraction 0 5 1) }
    ensures swapped { ¬ IsMeeting (square ∷ touching_hole ∷ []) 0 (record { ring = 1; edge = 0 })
        (record { ring = 0; edge = 3 }) (fraction 0 5 1) }
    ensures two_polygons { (polygon : ℕ)
        → ¬ IsMeeting (square ∷ square ∷ []) polygon (record { ring = 0; edge = 0 })
        (record { ring = 1; edge = 0 }) (fraction 5 0 1) }
{}

/// Holes where they shouldn't be, by the numbers that are true of them.
pub fn wrong_holes()
    ensures beside { IsVertexOutside (square ∷ hole_beside ∷ []) 0 1 0 }
    ensures in_hole { IsVertexInHole hole_in_hole 0 2 0 1 }
    ensures in_exterior { ¬ IsVertexInHole hole_in_hole 0 2 0 0 }
    ensures in_itself { ¬ IsVertexInHole hole_in_hole 0 2 0 2 }
    ensures exterior { ¬ IsVertexOutside hole_in_hole 0 0 1 }
    ensures other_polygon { (ring vertex : ℕ)
        → ¬ IsVertexOutside (square ∷ hole_beside ∷ []) 1 ring vertex }
    ensures within { (polygon ring vertex : ℕ)
        → ¬ IsVertexOutside two_polygons polygon ring vertex }
{}

/// In a second polygon too, rings have the numbers that they have in the feature.
pub fn a_second_polygon()
    ensures crossing { IsMeeting (square ∷ crossed ∷ []) 1 (record { ring = 1; edge = 0 })
        (record { ring = 1; edge = 2 }) (fraction 40 40 9) }
    ensures outside { IsVertexOutside (square ∷ square ∷ hole_beside ∷ []) 1 2 0 }
    ensures own_number { (vertex : ℕ) → ¬ IsVertexOutside (square ∷ square ∷ hole_beside ∷ []) 1 1
        vertex }
    ensures in_hole { IsVertexInHole (square ∷ hole_in_hole) 1 3 0 2 }
{}

/// Rings with faults of their own.
pub fn wrong_rings()
    ensures closed_twice { BreaksRings (closed_twice ∷ []) 501 0 }
    ensures no_area { BreaksRings (flat ∷ []) 502 0 }
    ensures hole_first { BreaksRings (hole_beside ∷ []) 503 0 }
    ensures standard { (ring : ℕ) → ¬ BreaksRings two_polygons 502 ring }
{}

/// The standard's own rings are those of valid polygons, one of which has a hole; so is one ring
/// twice, as two polygons may be in one place. A ring that crosses itself isn't, nor is one with a
/// hole beside it, nor one with a hole in a hole, nor one without area.
pub fn valid_rings()
    ensures standard { AreValidRings (triangle ∷ []) }
    ensures with_hole { AreValidRings two_polygons }
    ensures twice { AreValidRings (square ∷ square ∷ []) }
    ensures crossed { ¬ AreValidRings (crossed ∷ []) }
    ensures beside { ¬ AreValidRings (square ∷ hole_beside ∷ []) }
    ensures in_hole { ¬ AreValidRings hole_in_hole }
    ensures flat { ¬ AreValidRings (square ∷ flat ∷ []) }
{}

/// In a feature two squares in one place meet, as edges of the second one's polygon; and a square
/// on a frame is inside it, but not one in the hole of a frame. One square is valid: its first
/// vertex is inside its own ring by the rule for points on a ring, but a polygon isn't inside
/// itself.
pub fn polygons_of_a_feature()
    ensures twice { IsMeetingBy Feature (square ∷ square ∷ []) 1 (record { ring = 0; edge = 0 })
        (record { ring = 1; edge = 0 }) (fraction 5 0 1) }
    ensures invalid { ¬ AreValidRingsBy Feature (square ∷ square ∷ []) }
    ensures on_frame { IsVertexInPolygonBy Feature (frame ∷ stone ∷ []) 1 0 0 }
    ensures in_hole { ¬ IsInPolygon (ground ∷ hole ∷ island ∷ []) (rings_from 2 3) (rings_from 0 2)
        0 }
    ensures in_hole_of_feature { (other : ℕ)
        → ¬ IsVertexInPolygonBy Feature (ground ∷ hole ∷ island ∷ []) 1 0 other }
    ensures alone { AreValidRingsBy Feature (square ∷ []) }
{}
