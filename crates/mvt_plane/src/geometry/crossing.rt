ghost use Rattle.std.specs.Prelude.{◌≡◌, ◌↔◌, ◌≤◌, IsTrue, IfSome, ℤ, pos, ◌≤ℤ◌, ◌+ℤ◌, ◌*ℤ◌, ◌^◌, nat_abs};
ghost use Rattle.std.specs.Ordering.{int_cmp};
ghost use Rattle.mvt_plane.specs.Bound.{IsWithin};
ghost use Rattle.mvt_plane.specs.Geometry.CommonPoint.{IsNamed, cross_product};
ghost use Rattle.mvt_plane.specs.Counted.{ticked};
ghost use Rattle.mvt_plane.specs.Geometry.Measure.{orientation};
ghost use Rattle.mvt_plane.specs.Calls.Measure.{AreOpposite};
ghost use Rattle.mvt_plane.specs.Position.{Position, IsCoordinate};
ghost use Rattle.mvt_plane.specs.Geometry.RationalPoint.{LiesOn, IsAt, IsBetween, IsBounded, whole};

use crate::count::Count;
use crate::geometry::edge::{Edge, x_offset, y_offset};
use crate::geometry::hpoint::Hpoint;
use crate::geometry::measure::side;
use crate::geometry::point::Point;
use crate::geometry::step::{x_step, y_step};
use std::cmp::Ordering;

/// The point that two edges have in common, other than the vertex that they share as neighbours in
/// a ring: of the ends `e.a`, `e.b`, `f.a`, `f.b` the first that is one, with w = 1; else the
/// crossing of the edges, whose w is the size of the cross product of their directions, not
/// reduced. None exactly where the edges have no rational point in common but `shared` (Mapbox
/// Vector Tile Specification 2.1, section 4.3.4.4). It counts as one test.
pub fn common(e: Edge, f: Edge, shared: Option<Point>, count: &mut Count) -> Option<Hpoint>
    ensures point { IsNamed shared e f result }
    ensures bounded { IfSome result IsBounded }
    ensures tests { count.new.tests ≡ ticked count.old.tests }
    ensures no_fewer { count.old.tests ≤ count.new.tests }
    ensures probes { count.new.probes ≡ count.old.probes }
    ensures visits { count.new.visits ≡ count.old.visits }
{
    count.tick_test();
    let Edge { a, b } = e;
    let Edge { a: c, b: d } = f;
    let a_side = side(c, d, a);
    let b_side = side(c, d, b);
    if are_on_one_side(a_side, b_side) {
        return None;
    }
    let c_side = side(a, b, c);
    let d_side = side(a, b, d);
    if are_on_one_side(c_side, d_side) {
        return None;
    }
    if touches(a_side, a, c, d, &shared) {
        return Some(at(a));
    }
    if touches(b_side, b, c, d, &shared) {
        return Some(at(b));
    }
    if touches(c_side, c, a, b, &shared) {
        return Some(at(c));
    }
    if touches(d_side, d, a, b, &shared) {
        return Some(at(d));
    }
    if a_side.is_eq() || b_side.is_eq() || c_side.is_eq() || d_side.is_eq() {
        return None;
    }
    let point = crossing(a, b, c, d);
    if is_apart(&point, &shared) {
        Some(point)
    } else {
        None
    }
}

/// Whether two positions are both on the one or both on the other side of a line, and not on the
/// line.
fn are_on_one_side(first: Ordering, second: Ordering) -> bool
    ensures { IsTrue result ↔ ((first ≡ second) × ¬ (first ≡ Ordering.Equal)) }
{
    first == second && first.is_ne()
}

/// Whether an end, which is on this side of the line through an edge, lies on the edge and isn't
/// the shared vertex.
fn touches(side: Ordering, end: Point, a: Point, b: Point, shared: &Option<Point>) -> bool
    requires { side ≡ int_cmp (orientation a b end) (pos 0) }
    ensures { IsTrue result
        ↔ (LiesOn (whole end) (record { a = a; b = b }) × ((vertex : Position)
        → shared.now ≡ Some vertex → ¬ IsAt (whole end) vertex)) }
{
    side.is_eq() && !is_shared(end, shared) && is_in_box(end, a, b)
}

/// Whether a position is the shared vertex.
fn is_shared(position: Point, shared: &Option<Point>) -> bool
    ensures { IsTrue result ↔ (shared.now ≡ Some position) }
{
    *shared == Some(position)
}

/// Whether both coordinates of a position are between those of two others.
fn is_in_box(position: Point, a: Point, b: Point) -> bool
    ensures { IsTrue result ↔ (IsBetween a.x b.x position.x × IsBetween a.y b.y position.y) }
{
    is_between(a.x(), b.x(), position.x()) && is_between(a.y(), b.y(), position.y())
}

/// Whether a number is from one to another, in whichever order they are, with both of them.
fn is_between(from: i32, to: i32, z: i32) -> bool
    ensures { IsTrue result ↔ IsBetween from to z }
{
    (from <= z && z <= to) || (to <= z && z <= from)
}

/// A position as a rational point.
fn at(position: Point) -> Hpoint
    ensures value { result ≡ whole position }
    ensures bounded { IsBounded result }
{
    Hpoint::new(i128::from(position.x()), i128::from(position.y()), 1).unwrap()
}

/// The crossing of the edges from `a` to `b` and from `c` to `d`, which have their ends on both
/// sides of each other.
fn crossing(a: Point, b: Point, c: Point, d: Point) -> Hpoint
    requires first { AreOpposite (orientation c d a) (orientation c d b) }
    requires second { AreOpposite (orientation a b c) (orientation a b d) }
    ensures on_first { LiesOn result (record { a = a; b = b }) }
    ensures on_second { LiesOn result (record { a = c; b = d }) }
    ensures size { result.w ≡ pos (nat_abs (cross_product (record { a = a; b = b })
        (record { a = c; b = d }))) }
    ensures bounded { IsBounded result }
{
    let w = cross_size(a, b, c, d);
    let weight_b = cross_size(c, d, c, a);
    mean(a, b, w - weight_b, weight_b)
}

/// The size of the cross product of the steps from `a` to `b` and from `c` to `d`, up to 2^63.
fn cross_size(a: Point, b: Point, c: Point, d: Point) -> i128
    ensures value { result ≡ pos (nat_abs (cross_product (record { a = a; b = b })
        (record { a = c; b = d }))) }
    ensures bound { result ≤ℤ pos (2 ^ 63) }
{
    let right = x_step(a, b) * y_step(c, d);
    let left = y_step(a, b) * x_step(c, d);
    (i128::from(right) - i128::from(left)).abs()
}

/// The mean of two positions with these weights.
fn mean(a: Point, b: Point, weight_a: i128, weight_b: i128) -> Hpoint
    requires a_sign { pos 0 ≤ℤ weight_a }
    requires b_sign { pos 0 ≤ℤ weight_b }
    requires some { pos 1 ≤ℤ (weight_a +ℤ weight_b) }
    requires bound { (weight_a +ℤ weight_b) ≤ℤ pos (2 ^ 63) }
    ensures value { result ≡ record {
      x = weight_a *ℤ a.x +ℤ weight_b *ℤ b.x;
      y = weight_a *ℤ a.y +ℤ
          weight_b *ℤ b.y;
      w = weight_a +ℤ weight_b;
    } }
    ensures bounded { IsBounded result }
{
    let x = weighted_sum(weight_a, a.x(), weight_b, b.x());
    let y = weighted_sum(weight_a, a.y(), weight_b, b.y());
    Hpoint::new(x, y, weight_a + weight_b).unwrap()
}

/// The sum of two coordinates with these weights.
fn weighted_sum(weight_a: i128, a: i32, weight_b: i128, b: i32) -> i128
    requires weight_a { IsWithin (2 ^ 63) weight_a }
    requires weight_b { IsWithin (2 ^ 63) weight_b }
    requires a { IsCoordinate a }
    requires b { IsCoordinate b }
    ensures { result ≡ weight_a *ℤ a +ℤ weight_b *ℤ b }
{
    weight_a * i128::from(a) + weight_b * i128::from(b)
}

/// Whether a rational point isn't the shared vertex.
fn is_apart(point: &Hpoint, shared: &Option<Point>) -> bool
    ensures { IsTrue result ↔ ((vertex : Position) → shared.now ≡ Some vertex
        → ¬ IsAt point.now vertex) }
{
    match shared {
        Some(vertex) => x_offset(point, *vertex) != 0 || y_offset(point, *vertex) != 0,
        None => true,
    }
}
