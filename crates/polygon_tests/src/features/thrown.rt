//! Generated features.

use crate::dice::Dice;
use crate::rings::ring_at;
use mvt_plane::Point;
use std::alloc::Global;
use std::process::Abort;

/// A box, the one of this number in its feature, as an exterior or a hole. No two boxes of one
/// feature have a coordinate of their sides in common.
fn thrown_box(
    rt: &impl Abort,
    alloc: Global,
    dice: &mut Dice,
    number: i32,
    reach: i32,
) -> Vec<Point> {
    let left = dice.throw().wrapping_mul(reach).wrapping_add(number);
    let low = dice.throw().wrapping_mul(reach).wrapping_add(number);
    let width = dice.throw().wrapping_add(1).wrapping_mul(16);
    let height = dice.throw().wrapping_add(1).wrapping_mul(16);
    let right = left
        .wrapping_add(width)
        .wrapping_sub(number.wrapping_mul(2));
    let high = low
        .wrapping_add(height)
        .wrapping_sub(number.wrapping_mul(2));
    if number == 0 || dice.throw() < 5 {
        ring_at(
            rt,
            alloc,
            &[(left, low), (right, low), (right, high), (left, high)],
        )
    } else {
        ring_at(
            rt,
            alloc,
            &[(left, low), (left, high), (right, high), (right, low)],
        )
    }
}

/// Two to seven such boxes, close to each other or far.
pub(super) fn thrown_feature(rt: &impl Abort, alloc: Global, dice: &mut Dice) -> Vec<Vec<Point>> {
    let mut rings = Vec::new(alloc);
    let many = (dice.throw() % 6).wrapping_add(2);
    let reach = if dice.throw() < 4 { 16 } else { 48 };
    for number in 0..many {
        let ring = thrown_box(rt, alloc, dice, number, reach);
        rings.push(ring).expect(rt, "memory");
    }
    rings
}

/// A box as an exterior.
pub(super) fn land_at(
    rt: &impl Abort,
    alloc: Global,
    corner: (i32, i32),
    other: (i32, i32),
) -> Vec<Point> {
    let ((left, low), (right, high)) = (corner, other);
    ring_at(
        rt,
        alloc,
        &[(left, low), (right, low), (right, high), (left, high)],
    )
}

/// A box as a hole.
pub(super) fn lake_at(
    rt: &impl Abort,
    alloc: Global,
    corner: (i32, i32),
    other: (i32, i32),
) -> Vec<Point> {
    let ((left, low), (right, high)) = (corner, other);
    ring_at(
        rt,
        alloc,
        &[(left, low), (left, high), (right, high), (right, low)],
    )
}

/// A land with a lake, and another one that has a bay.
fn push_land(rt: &impl Abort, alloc: Global, rings: &mut Vec<Vec<Point>>) {
    let bay = [
        (120, 10),
        (120, 210),
        (150, 210),
        (150, 60),
        (210, 60),
        (210, 10),
    ];
    let land = land_at(rt, alloc, (0, 0), (220, 220));
    rings.push(land).expect(rt, "memory");
    let lake = lake_at(rt, alloc, (10, 10), (100, 210));
    rings.push(lake).expect(rt, "memory");
    rings.push(ring_at(rt, alloc, &bay)).expect(rt, "memory");
}

/// A small box, mostly in a lake: some are on the land, some touch a shore, and some have a lake of
/// their own.
fn push_island(
    rt: &impl Abort,
    alloc: Global,
    dice: &mut Dice,
    number: i32,
    rings: &mut Vec<Vec<Point>>,
) {
    let kind = dice.throw();
    let left = dice.throw().wrapping_mul(24).wrapping_add(number);
    let left = if kind == 0 { 10 } else { left.wrapping_add(12) };
    let low = dice.throw().wrapping_mul(24).wrapping_add(number);
    let low = low.wrapping_add(12);
    let right = left.wrapping_add(dice.throw()).wrapping_add(3);
    let high = low.wrapping_add(dice.throw()).wrapping_add(3);
    let island = land_at(rt, alloc, (left, low), (right, high));
    rings.push(island).expect(rt, "memory");
    if kind == 1 {
        let corner = (left.wrapping_add(1), low.wrapping_add(1));
        let lake = lake_at(
            rt,
            alloc,
            corner,
            (right.wrapping_sub(1), high.wrapping_sub(1)),
        );
        rings.push(lake).expect(rt, "memory");
    }
}

/// A land with lakes and up to four such islands, before it and after it.
pub(super) fn thrown_islands(rt: &impl Abort, alloc: Global, dice: &mut Dice) -> Vec<Vec<Point>> {
    let mut rings = Vec::new(alloc);
    let before = dice.throw() % 3;
    for number in 0..before {
        push_island(rt, alloc, dice, number, &mut rings);
    }
    push_land(rt, alloc, &mut rings);
    let many = (dice.throw() % 3).wrapping_add(before);
    for number in before..many {
        push_island(rt, alloc, dice, number, &mut rings);
    }
    rings
}
