ghost use Rattle.std.specs.Prelude.{◌≡◌, ◌↔◌, ◌^◌, ◌*ℤ◌, ◌<ℤ◌, IsTrue, pos};
ghost use Rattle.std.specs.Int.Signed.{lt_z};
ghost use Rattle.std.specs.Ordering.{int_cmp};
ghost use Rattle.mvt_plane.specs.Bound.{IsWithin};
ghost use Rattle.mvt_plane.specs.Geometry.EdgeOrder.{segment_between};
ghost use Rattle.mvt_plane.specs.Geometry.Measure.{orientation, key_of};
ghost use Rattle.mvt_plane.specs.Position.{IsPosition};
ghost use Rattle.mvt_plane.specs.Geometry.Ring.{doubled_area, edge_area};

use crate::geometry::point::Point;
use crate::geometry::step::{x_step, y_step};
use std::cmp::Ordering;

/// So much weighs a step along the x axis that it decides over each one along the y axis. (A
/// difference of keys has up to 65 bits.)
const X_WEIGHT: i64 = (1 << 31) + 1;

/// Twice the area of the triangle from `a` through `b` to `c`, in square units of the tile's
/// coordinates: positive where they go round as the vertices of an exterior do, negative where they
/// go the other way, 0 on one line (Mapbox Vector Tile Specification 2.1, section 4.3.4.4).
pub fn orient(a: Point, b: Point, c: Point) -> i128
    ensures { result ≡ orientation a b c }
{
    let diagonal = x_step(a, b) * y_step(a, c);
    let antidiagonal = y_step(a, b) * x_step(a, c);
    i128::from(diagonal) - i128::from(antidiagonal)
}

/// How `orient` of these positions compares with 0: Equal where the third one is on the line
/// through the others, and else Less or Greater by the side on which it is (section 4.3.4.4). No
/// number of 128 bits is needed for that.
#[inline]
pub fn side(from: Point, to: Point, position: Point) -> Ordering
    ensures { result ≡ int_cmp (orientation from to position) (pos 0) }
{
    let right = x_step(from, to) * y_step(from, position);
    let left = y_step(from, to) * x_step(from, position);
    right.cmp(&left)
}

/// Twice the area that a ring goes round, by the surveyor's formula, in square units of the tile's
/// coordinates: positive for an exterior, negative for a hole (section 4.3.4.4). Any number of
/// vertices is summed with no overflow.
pub fn twice_area(ring: &[Point]) -> i128
    ensures { result ≡ doubled_area ring.now }
{
    if ring.is_empty() {
        return 0;
    }
    let first = ring[0];
    let mut area = 0;
    let mut from = first;
    for i in 1..ring.len() {
        let to = ring[i];
        area += i128::from(area_part(from, to));
        from = to;
    }
    area + i128::from(area_part(from, first))
}

/// The part of the edge from `a` to `b` in the doubled area of its ring, by the surveyor's formula,
/// in square units of the tile's coordinates; from -2^61 to 2^61 (section 4.3.4.4).
pub fn area_part(a: Point, b: Point) -> i64
    ensures value { result ≡ edge_area (record { a = a; b = b }) }
    ensures bound { IsWithin (2 ^ 61) result }
{
    x_times_y(a, b) - x_times_y(b, a)
}

/// The x of one position times the y of another, from -2^60 to 2^60.
fn x_times_y(a: Point, b: Point) -> i64
    ensures value { result ≡ a.x *ℤ b.y }
    ensures bound { IsWithin (2 ^ 60) result }
{
    i64::from(a.x()) * i64::from(b.y())
}

/// The number by which a sweep meets positions: those of lesser x first, and of equal x those of
/// lesser y. No two positions have one key, as coordinates are from -2^30 to 2^30.
pub fn sweep_key(point: Point) -> i64
    ensures value { result ≡ key_of point }
    ensures in_range { IsPosition point }
{
    i64::from(point.x()) * (1 << 32) + i64::from(point.y())
}

/// Whether the line through the ends of an edge passes below a position: whether `orient` of the
/// end of lesser key, the other end and the position is positive. No number of 128 bits is needed
/// for that.
#[inline]
pub fn passes_below(from: Point, to: Point, position: Point) -> bool
    ensures { IsTrue result ↔ (pos 0 <ℤ orientation (segment_between from to).low
        (segment_between from to).high position) }
{
    let right = x_step(from, to) * y_step(from, position);
    let left = y_step(from, to) * x_step(from, position);
    // (to choose among numbers costs less than among comparisons)
    let (greater, lesser) = if comes_before(from, to) {
        (right, left)
    } else {
        (left, right)
    };
    greater > lesser
}

/// Whether the key of a position is less than that of another.
#[inline(always)]
fn comes_before(one: Point, other: Point) -> bool
    ensures { result ≡ lt_z (key_of one) (key_of other) }
{
    x_step(one, other) * X_WEIGHT + y_step(one, other) > 0
}
