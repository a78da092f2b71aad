//! The laws of rational points on edges (section 4.3.4.4).

ghost use Rattle.std.specs.Prelude.{◌≡◌, ◌↔◌, ℤ, pos, ◌*ℤ◌, ◌≤ℤ◌, Option, Some, None};
ghost use Rattle.mvt_plane.specs.Geometry.CommonPoint.{IsCommon, IsNamed};
ghost use Rattle.mvt_plane.specs.Position.{Position, IsPosition};
ghost use Rattle.mvt_plane.specs.Geometry.RationalPoint.{RationalPoint, LiesOn, IsAt, IsBounded, whole};
ghost use Rattle.mvt_plane.specs.declared.geometry.edge.Edge.{Edge};

/// An edge has its ends.
pub fn ends_lie_on_edge()
    ensures a { (edge : Edge) → LiesOn (whole edge.a) edge }
    ensures b { (edge : Edge) → LiesOn (whole edge.b) edge }
{}

/// It has the same points in either direction.
pub fn either_direction()
    ensures { (point : RationalPoint) (a b : Position) → LiesOn point (record { a = a; b = b })
        → LiesOn point (record { a = b; b = a }) }
{}

/// Multiples of the numbers of a rational point are the same point.
pub fn one_point_of_many_numbers()
    ensures on_edge { (factor : ℤ) (point : RationalPoint) (edge : Edge) → pos 1 ≤ℤ factor
        → pos 1 ≤ℤ point.w →
        (LiesOn point edge ↔ LiesOn (record {
          x = factor *ℤ point.x;
          y = factor *ℤ point.y;
          w =
              factor *ℤ point.w;
        }) edge) }
    ensures at { (factor : ℤ) (point : RationalPoint) (position : Position) → pos 1 ≤ℤ factor →
        (IsAt point position ↔ IsAt (record {
          x = factor *ℤ point.x;
          y = factor *ℤ point.y;
          w =
              factor *ℤ point.w;
        }) position) }
{}

/// Where no common point is named, two edges meet only at the vertex that they share, if at all.
pub fn only_at_the_shared_vertex()
    ensures { (shared : Option Position) (first second : Edge) (point : RationalPoint)
        → IsNamed shared first second None →
        LiesOn point first → LiesOn point second
        → (vertex : Position) × (shared ≡ Some vertex) × IsAt point vertex }
{}

/// Where one is named, it is a common point.
pub fn named_is_common()
    ensures { (shared : Option Position) (first second : Edge) (point : RationalPoint)
        → IsNamed shared first second (Some point) →
        IsCommon shared first second point }
{}

/// Two edges have just one named point or none.
pub fn one_named_point()
    ensures { (shared : Option Position) (first second : Edge) (answer other : Option RationalPoint) →
        IsNamed shared first second answer → IsNamed shared first second other → answer ≡ other }
{}

/// The named point of edges between positions in range is in range.
pub fn named_point_is_bounded()
    ensures { (shared : Option Position) (first second : Edge) (point : RationalPoint)
        → IsPosition first.a → IsPosition first.b →
        IsPosition second.a → IsPosition second.b → IsNamed shared first second (Some point)
        → IsBounded point }
{}
