//! Whether a point of an edge is close to a position.
ghost use Rattle.std.specs.Prelude.{◌≡◌, ◌^◌, pos, neg_ℤ, ◌-ℤ◌, ◌*ℤ◌, ◌≤ℤ◌, IsTrue};
ghost use Rattle.mvt_mend.specs.Calls.Close.{IsCloseToEdge};
ghost use Rattle.mvt_mend.specs.Near.{IsCloseTo};
ghost use Rattle.mvt_plane.specs.Bound.{IsWithin};
ghost use Rattle.mvt_plane.specs.Position.{IsCoordinate};

use crate::kept::is_same_position;
use mvt_plane::{Edge, Hpoint, Point, on_edge};

/// How far a new position may be from the old edges along each axis, in units of the tile's grid:
/// two roundings of half a unit each and the cut of a corner, of up to one, may add up.
const FARTHEST: i128 = 2;

/// Whether a point of the edge is close to the position: the position itself, an end of the edge,
/// or where the edge crosses a side of the square around the position.
pub(super) fn is_close_to_edge(position: Point, edge: &Edge) -> bool
    ensures { IsTrue result → IsCloseToEdge position edge.now }
{
    // (most new positions are old ones)
    if is_begin(position, edge) || is_end(position, edge) {
        return true;
    }
    if is_witness(position, edge, at(position)) {
        return true;
    }
    if is_witness(position, edge, at(edge.a)) {
        return true;
    }
    if is_witness(position, edge, at(edge.b)) {
        return true;
    }
    crosses_sides(position, edge)
}

/// Whether the edge begins at the position.
fn is_begin(position: Point, edge: &Edge) -> bool
    ensures { IsTrue result → IsCloseToEdge position edge.now }
{
    is_same_position(position, edge.a)
}

/// Whether the edge ends at the position.
fn is_end(position: Point, edge: &Edge) -> bool
    ensures { IsTrue result → IsCloseToEdge position edge.now }
{
    is_same_position(position, edge.b)
}

/// Whether the edge crosses a side of the square around the position.
fn crosses_sides(position: Point, edge: &Edge) -> bool
    ensures { IsTrue result → IsCloseToEdge position edge.now }
{
    let x = i128::from(position.x());
    let y = i128::from(position.y());
    if is_witness(position, edge, at_x(edge, x.wrapping_sub(FARTHEST))) {
        return true;
    }
    if is_witness(position, edge, at_x(edge, x.wrapping_add(FARTHEST))) {
        return true;
    }
    if is_witness(position, edge, at_y(edge, y.wrapping_sub(FARTHEST))) {
        return true;
    }
    is_witness(position, edge, at_y(edge, y.wrapping_add(FARTHEST)))
}

/// Whether a point, if there is one, lies on the edge and is close to the position.
fn is_witness(position: Point, edge: &Edge, point: Option<Hpoint>) -> bool
    ensures { IsTrue result → IsCloseToEdge position edge.now }
{
    match point {
        Some(point) => is_close_to(position, &point) && on_edge(&point, edge.a, edge.b),
        None => false,
    }
}

/// A position as a rational point.
fn at(position: Point) -> Option<Hpoint> {
    Hpoint::new(i128::from(position.x()), i128::from(position.y()), 1)
}

/// The point of the line through the edge that has this x, or None where the line is upright. It is
/// tested afterwards, so nothing is claimed of it.
fn at_x(edge: &Edge, x: i128) -> Option<Hpoint> {
    let from = i128::from(edge.a.x());
    let run = i128::from(edge.b.x()).wrapping_sub(from);
    let rise = i128::from(edge.b.y()).wrapping_sub(i128::from(edge.a.y()));
    let y = weighted(i128::from(edge.a.y()), run, x.wrapping_sub(from), rise);
    turned(x.wrapping_mul(run), y, run)
}

/// The point of the line through the edge that has this y, or None where the line is level.
fn at_y(edge: &Edge, y: i128) -> Option<Hpoint> {
    let from = i128::from(edge.a.y());
    let rise = i128::from(edge.b.y()).wrapping_sub(from);
    let run = i128::from(edge.b.x()).wrapping_sub(i128::from(edge.a.x()));
    let x = weighted(i128::from(edge.a.x()), rise, y.wrapping_sub(from), run);
    turned(x, y.wrapping_mul(rise), rise)
}

/// One product and another.
fn weighted(one: i128, its: i128, other: i128, others: i128) -> i128 {
    one.wrapping_mul(its)
        .wrapping_add(other.wrapping_mul(others))
}

/// The rational point of these numbers, of which the last may be negative.
fn turned(x: i128, y: i128, w: i128) -> Option<Hpoint> {
    if w < 0 {
        Hpoint::new(x.wrapping_neg(), y.wrapping_neg(), w.wrapping_neg())
    } else {
        Hpoint::new(x, y, w)
    }
}

/// Whether it is at most two units from the position to the point along both axes.
fn is_close_to(position: Point, point: &Hpoint) -> bool
    ensures { IsTrue result → IsCloseTo position point.now }
{
    is_few(x_offset(point, position), point) && is_few(y_offset(point, position), point)
}

/// Whether a distance along an axis, times the `w` of a point, is at most two units.
fn is_few(offset: i128, point: &Hpoint) -> bool
    requires { IsWithin (2 ^ 94) offset }
    ensures { IsTrue result → (neg_ℤ (pos 2 *ℤ point.now.w) ≤ℤ offset)
        × (offset ≤ℤ (pos 2 *ℤ point.now.w)) }
{
    let most = FARTHEST * point.w();
    -most <= offset && offset <= most
}

/// How far it is from a position to the point along the x axis, times `w`.
fn x_offset(point: &Hpoint, from: Point) -> i128
    ensures value { result ≡ point.now.x -ℤ from.x *ℤ point.now.w }
    ensures bound { IsWithin (2 ^ 94) result }
{
    offset(point.x(), from.x(), point.w())
}

/// The same along the y axis.
fn y_offset(point: &Hpoint, from: Point) -> i128
    ensures value { result ≡ point.now.y -ℤ from.y *ℤ point.now.w }
    ensures bound { IsWithin (2 ^ 94) result }
{
    offset(point.y(), from.y(), point.w())
}

/// How far it is from a coordinate to `times / w`, times `w`.
fn offset(times: i128, from: i32, w: i128) -> i128
    requires times { IsWithin (2 ^ 93) times }
    requires from { IsCoordinate from }
    requires w { IsWithin (2 ^ 63) w }
    ensures value { result ≡ times -ℤ from *ℤ w }
    ensures bound { IsWithin (2 ^ 94) result }
{
    times - i128::from(from) * w
}
