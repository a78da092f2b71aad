//! Sails against what is in each cone, tried position by position.

use mvt_overlay::sail::{Corner, Direction, det, sail};
use std::alloc::Global;
use std::process::Abort;

/// So far directions go along each axis.
const REACH: i64 = 9;

/// The number of directions along an axis, and of the positions that are tried.
const SIDE: i64 = 2 * REACH + 1;

/// The direction of a number.
fn direction_of(number: i64) -> Direction {
    Direction {
        x: (number % SIDE).wrapping_sub(REACH),
        y: (number / SIDE).wrapping_sub(REACH),
    }
}

/// Whether two directions are the same.
fn is_same(one: Direction, other: Direction) -> bool {
    one.x == other.x && one.y == other.y
}

/// Whether a corner is there, and so many steps from the one before.
fn is_corner(corner: &Corner, at: Direction, steps: i64) -> bool {
    is_same(corner.at, at) && corner.steps == steps
}

/// Whether it is the shortest step in its direction.
fn is_primitive(direction: Direction) -> bool {
    match direction.primitive() {
        Some((_, count)) => count == 1,
        None => false,
    }
}

/// Whether a direction is between both sides of a cone, or on one.
fn is_in_cone(right: Direction, left: Direction, direction: Direction) -> bool {
    det(right, direction) >= 0 && det(direction, left) >= 0
}

/// Asserts that the corners turn away from the tip, one after the other.
fn assert_corners(rt: &impl Abort, corners: &[Corner], right: Direction, left: Direction) {
    let count = corners.len();
    assert!(rt; count >= 2);
    assert!(rt; is_corner(&corners[0], right, 0) && is_same(corners[count - 1].at, left));
    for at in 1..count {
        // steps of the grid, each of which spans an empty triangle with the tip
        let step = corners[at].at.minus(corners[at - 1].at);
        let (_, steps) = step.primitive().expect(rt, "a step");
        assert!(rt; steps == corners[at].steps);
        assert!(rt; det(corners[at - 1].at, corners[at].at) == i128::from(steps));
        if at + 1 < count {
            let next = corners[at + 1].at.minus(corners[at].at);
            assert!(rt; det(step, next) < 0);
        }
    }
}

/// Asserts that no position of the cone but the tip is nearer to the tip than the sail.
fn assert_nothing_nearer(rt: &impl Abort, corners: &[Corner], right: Direction, left: Direction) {
    for number in 0..SIDE * SIDE {
        let tried = direction_of(number);
        if (tried.x == 0 && tried.y == 0) || !is_in_cone(right, left, tried) {
            continue;
        }
        for at in 1..corners.len() {
            let from = corners[at - 1].at;
            let to = corners[at].at;
            assert!(rt; det(to.minus(from), tried.minus(from)) <= 0);
        }
    }
}

/// Asserts what a sail is of one cone.
fn assert_sail(rt: &impl Abort, alloc: Global, right: Direction, left: Direction) {
    let corners = sail(alloc, right, left)
        .expect(rt, "memory")
        .expect(rt, "a sail");
    assert_corners(rt, &corners, right, left);
    assert_nothing_nearer(rt, &corners, right, left);
}

// All positions of a triangle of the tip and two directions are within their reach.
#[test]
fn all_small_cones(rt: HostRuntime) {
    let mut cones = 0_u32;
    for one in 0..SIDE * SIDE {
        for other in 0..SIDE * SIDE {
            let right = direction_of(one);
            let left = direction_of(other);
            if is_primitive(right) && is_primitive(left) && det(right, left) > 0 {
                assert_sail(&rt, rt.alloc(), right, left);
                cones = cones.wrapping_add(1);
            }
        }
    }
    assert!(rt; cones > 5_000);
}

/// Cones, and their corners with their steps, worked out by hand.
const SAILS: &[((i64, i64), (i64, i64), &[(i64, i64, i64)])] = &[
    // a quarter turn
    ((1, 0), (0, 1), &[(1, 0, 0), (0, 1, 1)]),
    // thin at the tip: straight on along the x axis of both sides
    ((1, 0), (1, 5), &[(1, 0, 0), (1, 5, 5)]),
    // det 5: from (1, 0) to (1, 1), and on to (2, 5) over (1, 2)
    ((1, 0), (2, 5), &[(1, 0, 0), (1, 2, 2), (2, 5, 1)]),
    // as wide as it can be
    ((1, 0), (-7, 1), &[(1, 0, 0), (-7, 1, 1)]),
    ((3, 1), (1, 3), &[(3, 1, 0), (1, 1, 2), (1, 3, 2)]),
    // a billion steps at once
    (
        (1, 0),
        (1, 1_000_000_000),
        &[(1, 0, 0), (1, 1_000_000_000, 1_000_000_000)],
    ),
];

#[test]
fn sails_by_hand(rt: HostRuntime) {
    for &(right, left, wanted) in SAILS {
        let right = Direction {
            x: right.0,
            y: right.1,
        };
        let left = Direction {
            x: left.0,
            y: left.1,
        };
        let corners = sail(rt.alloc(), right, left)
            .expect(&rt, "memory")
            .expect(&rt, "a sail");
        assert!(rt; corners.len() == wanted.len());
        for at in 0..wanted.len() {
            let (x, y, steps) = wanted[at];
            assert!(rt; is_corner(&corners[at], Direction { x, y }, steps));
        }
    }
}

// No cone, or one of half a turn or more, has none.
#[test]
fn no_sail(rt: HostRuntime) {
    let right = Direction { x: 1, y: 0 };
    for (x, y) in [(1, 0), (-1, 0), (0, -1), (1, -1)] {
        let found = sail(rt.alloc(), right, Direction { x, y }).expect(&rt, "memory");
        assert!(rt; found.is_none());
    }
}
