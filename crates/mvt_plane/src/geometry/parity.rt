ghost use Rattle.std.specs.Prelude.{◌≡◌, ◌↔◌, IsTrue, ◌-ℤ◌, ◌*ℤ◌, ◌≤ℤ◌};
ghost use Rattle.mvt_plane.specs.Geometry.Inside.{PassesOver, IsInside};

use crate::geometry::point::Point;
use crate::geometry::step::{x_step, y_step};

/// Whether the position is inside the ring: whether an odd number of the ring's edges pass over it
/// (Mapbox Vector Tile Specification 2.1, section 4.3.4.4). An edge passes over the position where
/// exactly one of its ends has an x that is at most the position's, and the edge has a greater y at
/// the position's x. On the ring itself some positions count as inside and some don't, by the same
/// rule.
pub fn inside(point: Point, ring: &[Point]) -> bool
    ensures { IsTrue result ↔ IsInside point ring.now }
{
    let Some((first, rest)) = ring.split_first() else {
        return false;
    };
    let mut is_odd = false;
    // by reference, so that most vertices are read by their x alone
    let mut from = first;
    for to in rest {
        is_odd ^= passes_over(point, *from, *to);
        from = to;
    }
    is_odd ^ passes_over(point, *from, *first)
}

/// Whether the edge from `a` to `b` passes over the position. Most edges have both of their ends on
/// one side, so it is tested first.
fn passes_over(point: Point, a: Point, b: Point) -> bool
    ensures { IsTrue result ↔ PassesOver point (record { a = a; b = b }) }
{
    let begins_up_to = is_up_to(a, point);
    let ends_up_to = is_up_to(b, point);
    if begins_up_to == ends_up_to {
        return false;
    }
    let of_point = rectangle(a, b, point);
    let of_edge = rectangle(a, point, b);
    if begins_up_to {
        of_point < of_edge
    } else {
        of_edge < of_point
    }
}

/// Whether a vertex has an x that is at most the position's.
#[inline(always)]
fn is_up_to(vertex: Point, point: Point) -> bool
    ensures { IsTrue result ↔ (vertex.x ≤ℤ point.x) }
{
    vertex.x() <= point.x()
}

/// The area of the rectangle from `corner` to the x of `across` and the y of `along`, negative
/// where just one of them is less than that of `corner`.
fn rectangle(corner: Point, across: Point, along: Point) -> i64
    ensures { result ≡ (across.x -ℤ corner.x) *ℤ (along.y -ℤ corner.y) }
{
    x_step(corner, across) * y_step(corner, along)
}
