ghost use Rattle.std.specs.Prelude.{◌≡◌, ◌^◌, ◌↔◌, IsTrue, pos, ◌-ℤ◌, ◌*ℤ◌, ◌≤ℤ◌};
ghost use Rattle.mvt_plane.specs.Bound.{IsWithin};
ghost use Rattle.mvt_plane.specs.Position.{IsCoordinate};
ghost use Rattle.mvt_plane.specs.Geometry.RationalPoint.{LiesOn, IsBetween};

use crate::geometry::hpoint::Hpoint;
use crate::geometry::point::Point;
use crate::geometry::step::{x_step, y_step};

/// An edge of a ring (Mapbox Vector Tile Specification 2.1, section 4.3.4.4): the straight line
/// from one vertex to the next, with both of them.
#[derive(Clone, Copy, Debug, PartialEq, Eq)]
pub struct Edge {
    /// The vertex where it begins.
    pub a: Point,
    /// The vertex where it ends.
    pub b: Point,
}

/// Whether the rational point lies on the edge from `a` to `b`, its ends included.
pub fn on_edge(point: &Hpoint, a: Point, b: Point) -> bool
    ensures { IsTrue result ↔ LiesOn point.now (record { a = a; b = b }) }
{
    let x_from_a = x_offset(point, a);
    let x_from_b = x_offset(point, b);
    if !has_zero_between(x_from_a, x_from_b) {
        return false;
    }
    let y_from_a = y_offset(point, a);
    let y_from_b = y_offset(point, b);
    if !has_zero_between(y_from_a, y_from_b) {
        return false;
    }
    is_along(x_from_a, y_from_a, a, b)
}

/// How far it is from a position to the rational point along the x axis, times `w`: from -2^94 to
/// 2^94.
pub(crate) fn x_offset(point: &Hpoint, from: Point) -> i128
    ensures positive { pos 1 ≤ℤ point.now.w }
    ensures value { result ≡ point.now.x -ℤ from.x *ℤ point.now.w }
    ensures bound { IsWithin (2 ^ 94) result }
{
    offset(point.x(), from.x(), point.w())
}

/// The same along the y axis.
pub(crate) fn y_offset(point: &Hpoint, from: Point) -> i128
    ensures value { result ≡ point.now.y -ℤ from.y *ℤ point.now.w }
    ensures bound { IsWithin (2 ^ 94) result }
{
    offset(point.y(), from.y(), point.w())
}

/// How far it is from a coordinate to z / w, times `w`.
fn offset(z: i128, from: i32, w: i128) -> i128
    requires z { IsWithin (2 ^ 93) z }
    requires from { IsCoordinate from }
    requires w { IsWithin (2 ^ 63) w }
    ensures value { result ≡ z -ℤ from *ℤ w }
    ensures bound { IsWithin (2 ^ 94) result }
{
    z - i128::from(from) * w
}

/// Whether 0 is between two numbers, in whichever order they are, or is one of them.
fn has_zero_between(one: i128, other: i128) -> bool
    ensures { IsTrue result ↔ IsBetween one other (pos 0) }
{
    one.min(other) <= 0 && 0 <= one.max(other)
}

/// Whether the direction (x, y) is along the line from `a` to `b`; any is where these are one
/// position.
fn is_along(x: i128, y: i128, a: Point, b: Point) -> bool
    requires x { IsWithin (2 ^ 94) x }
    requires y { IsWithin (2 ^ 94) y }
    ensures { IsTrue result ↔ ((b.x -ℤ a.x) *ℤ y ≡ (b.y -ℤ a.y) *ℤ x) }
{
    i128::from(x_step(a, b)) * y == i128::from(y_step(a, b)) * x
}
