//! What the definitions of geometry say of known rings and edges. Each of these statements is one
//! that a slip in a definition would make false, as a strict bound for a weak one.

ghost use Rattle.std.specs.Prelude.{◌≡◌, ℕ, List, pos, negsuc, Some, None};
ghost use Rattle.mvt_plane.specs.Geometry.CommonPoint.{IsNamed};
ghost use Rattle.mvt_plane.specs.Geometry.Examples.{at, fraction, triangle, square, frame, hole_of_frame};
ghost use Rattle.mvt_plane.specs.FeatureGeometry.{HasFigure, HasRings};
ghost use Rattle.mvt_plane.specs.Geometry.Inside.{IsInside};
ghost use Rattle.mvt_plane.specs.Position.{Position};
ghost use Rattle.mvt_plane.specs.Geometry.RationalPoint.{LiesOn};
ghost use Rattle.mvt_plane.specs.Geometry.Ring.{doubled_area};

/// The doubled areas of the standard's own rings, those of exteriors positive.
pub fn doubled_areas()
    ensures triangle { doubled_area triangle ≡ pos 38 }
    ensures square { doubled_area square ≡ pos 200 }
    ensures frame { doubled_area frame ≡ pos 162 }
    ensures hole { doubled_area hole_of_frame ≡ negsuc 31 }
{}

/// A point on an edge, as given by several numbers; beside the line; on the line after the edge's
/// end, also where the edge is level or upright.
pub fn points_on_an_edge()
    ensures crossing { LiesOn (fraction 800 800 180) (record { a = at 0 8; b = at 10 0 }) }
    ensures reduced { LiesOn (fraction 40 40 9) (record { a = at 0 8; b = at 10 0 }) }
    ensures beside { ¬ LiesOn (fraction 800 800 181) (record { a = at 0 8; b = at 10 0 }) }
    ensures following { ¬ LiesOn (record { x = pos 20; y = negsuc 7; w = pos 1 })
        (record { a = at 0 8; b = at 10 0 }) }
    ensures after_level { ¬ LiesOn (fraction 11 0 1) (record { a = at 0 0; b = at 10 0 }) }
    ensures after_upright { ¬ LiesOn (fraction 0 11 1) (record { a = at 0 0; b = at 0 10 }) }
{}

/// Positions inside the square, beside it, of a greater and of a lesser y, and on it.
pub fn positions_inside()
    ensures inside { IsInside (at 5 5) square }
    ensures beside { ¬ IsInside (at 15 5) square }
    ensures of_greater_y { ¬ IsInside (at 5 15) square }
    ensures of_lesser_y { ¬ IsInside (record { x = pos 5; y = negsuc 4 }) square }
    ensures on_the_left { IsInside (at 0 5) square }
    ensures on_the_right { ¬ IsInside (at 10 5) square }
    ensures on_the_lower_side { IsInside (at 5 0) square }
    ensures on_the_upper_side { ¬ IsInside (at 5 10) square }
{}

/// Positions inside the triangle and beside it, between a slanting edge's ends in x and in y.
pub fn positions_inside_a_triangle()
    ensures between { IsInside (at 9 14) triangle }
    ensures beside_both { ¬ IsInside (at 9 13) triangle }
    ensures after_both { ¬ IsInside (at 9 16) triangle }
{}

/// Of several common points the one that is named: the first end of the first edge comes first, and
/// the shared vertex never.
pub fn named_points()
    ensures first_end { IsNamed None (record { a = at 0 0; b = at 10 0 })
        (record { a = at 0 0; b = at 10 0 }) (Some (fraction 0 0 1)) }
    ensures second_end { IsNamed (Some (at 0 0)) (record { a = at 0 0; b = at 10 0 })
        (record { a = at 0 0; b = at 10 0 }) (Some (fraction 10 0 1)) }
    ensures third_end { IsNamed None (record { a = at 0 0; b = at 10 0 })
        (record { a = at 8 0; b = at 2 0 }) (Some (fraction 8 0 1)) }
    ensures fourth_end { IsNamed (Some (at 8 0)) (record { a = at 0 0; b = at 10 0 })
        (record { a = at 8 0; b = at 2 0 }) (Some (fraction 2 0 1)) }
    ensures crossing { IsNamed None (record { a = at 0 8; b = at 10 0 })
        (record { a = at 10 10; b = at 0 0 }) (Some (fraction 800 800 180)) }
    ensures none { IsNamed (Some (at 10 0)) (record { a = at 0 0; b = at 10 0 })
        (record { a = at 10 0; b = at 10 10 }) None }
{}

/// A geometry of unknown type may have any numbers, and has no rings.
pub fn unknown_geometry()
    ensures any { (numbers : List ℕ) → HasFigure 0 numbers }
    ensures no_rings { (numbers : List ℕ) (rings : List (List Position))
        → ¬ HasRings 0 numbers rings }
{}
