use crate::{Point, orient, passes_below, side, sweep_key, twice_area};
use std::cmp::Ordering;

const GREATEST: i32 = 1_073_741_824;

#[test]
fn turns_have_the_sign_of_an_exterior(rt: HostRuntime) {
    assert!(rt; turn(10, 10) == Some(100));
    assert!(rt; turn(10, -10) == Some(-100));
    assert!(rt; turn(25, 0) == Some(0));
}

/// Twice the area of the triangle from (0, 0) through (10, 0) to a third position.
fn turn(x: i32, y: i32) -> Option<i128> {
    let a = Point::new(0, 0)?;
    let b = Point::new(10, 0)?;
    Some(orient(a, b, Point::new(x, y)?))
}

#[test]
fn sides_are_told_at_the_greatest_distance(rt: HostRuntime) {
    assert!(rt; side_of(GREATEST - 1, GREATEST) == Some(Ordering::Greater));
    assert!(rt; side_of(GREATEST, GREATEST - 1) == Some(Ordering::Less));
    assert!(rt; side_of(7, 7) == Some(Ordering::Equal));
}

/// The side of the greatest square's diagonal on which a position is.
fn side_of(x: i32, y: i32) -> Option<Ordering> {
    let low = Point::new(-GREATEST, -GREATEST)?;
    let high = Point::new(GREATEST, GREATEST)?;
    Some(side(low, high, Point::new(x, y)?))
}

#[test]
fn keys_go_by_x_first(rt: HostRuntime) {
    assert!(rt; key(1, -1) == Some(4_294_967_295));
    assert!(rt; key(-GREATEST, -GREATEST) == Some(-4_611_686_019_501_129_728));
}

/// The key of a position.
fn key(x: i32, y: i32) -> Option<i64> {
    Some(sweep_key(Point::new(x, y)?))
}

// Of a diagonal, of an edge that falls and of one along a column: a position above, one below and
// one on it.
#[test]
fn edges_pass_below_positions(rt: HostRuntime) {
    assert!(rt; pass_below((0, 0), (10, 10), (5, 6)) == Some((true, true)));
    assert!(rt; pass_below((0, 0), (10, 10), (5, 4)) == Some((false, false)));
    assert!(rt; pass_below((0, 0), (10, 10), (5, 5)) == Some((false, false)));
    assert!(rt; pass_below((3, GREATEST), (4, -GREATEST), (4, 0)) == Some((true, true)));
    assert!(rt; pass_below((3, GREATEST), (4, -GREATEST), (3, 0)) == Some((false, false)));
    assert!(rt; pass_below((3, GREATEST), (4, -GREATEST), (4, -GREATEST)) == Some((false, false)));
    assert!(rt; pass_below((7, -1), (7, 1), (6, 0)) == Some((true, true)));
    assert!(rt; pass_below((7, -1), (7, 1), (8, 0)) == Some((false, false)));
    assert!(rt; pass_below((7, -1), (7, 1), (7, 0)) == Some((false, false)));
}

/// Whether an edge passes below a position, and so the other way round.
fn pass_below(one: (i32, i32), other: (i32, i32), at: (i32, i32)) -> Option<(bool, bool)> {
    let one = Point::new(one.0, one.1)?;
    let other = Point::new(other.0, other.1)?;
    let at = Point::new(at.0, at.1)?;
    Some((passes_below(one, other, at), passes_below(other, one, at)))
}

#[test]
fn areas_are_exact(rt: HostRuntime) {
    assert!(rt; area_of_triangle() == Some(38));
    assert!(rt; area_of_square(0, 0, 10) == Some(200));
    assert!(rt; area_of_square(11, 11, 9) == Some(162));
    assert!(rt; area_of_hole() == Some(-32));
    assert!(rt; area_of_crossing_rings() == Some((20, 2_147_483_647)));
    assert!(rt; area_of_greatest_square() == Some(9_223_372_036_854_775_808));
    assert!(rt; twice_area(&[]) == 0);
}

/// The doubled area of an exterior.
fn area_of_triangle() -> Option<i128> {
    Some(twice_area(&[Point::new(3, 6)?, Point::new(8, 12)?, Point::new(20, 34)?]))
}

/// The doubled area of an exterior: a square from its least corner.
fn area_of_square(x: i32, y: i32, side: i32) -> Option<i128> {
    let (right, top) = (x.checked_add(side)?, y.checked_add(side)?);
    Some(twice_area(&[
        Point::new(x, y)?,
        Point::new(right, y)?,
        Point::new(right, top)?,
        Point::new(x, top)?,
    ]))
}

/// The doubled area of a hole.
fn area_of_hole() -> Option<i128> {
    Some(twice_area(&[
        Point::new(13, 13)?,
        Point::new(13, 17)?,
        Point::new(17, 17)?,
        Point::new(17, 13)?,
    ]))
}

/// The doubled areas of two rings whose edges cross: a small one, and one from end to end of all
/// coordinates.
fn area_of_crossing_rings() -> Option<(i128, i128)> {
    let (least, most) = (-GREATEST, GREATEST - 1);
    let small = [
        Point::new(0, 8)?,
        Point::new(10, 0)?,
        Point::new(10, 10)?,
        Point::new(0, 0)?,
    ];
    let large = [
        Point::new(least, most - 1)?,
        Point::new(most, least)?,
        Point::new(most, most)?,
        Point::new(least, least)?,
    ];
    Some((twice_area(&small), twice_area(&large)))
}

/// The doubled area of the greatest square.
fn area_of_greatest_square() -> Option<i128> {
    Some(twice_area(&[
        Point::new(-GREATEST, -GREATEST)?,
        Point::new(GREATEST, -GREATEST)?,
        Point::new(GREATEST, GREATEST)?,
        Point::new(-GREATEST, GREATEST)?,
    ]))
}
