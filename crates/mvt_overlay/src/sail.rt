//! What faces the tip of a cone: the hull of the grid positions that are in it.
//!
//! Of all positions of the grid in a cone but its tip, take the hull. The part of it that faces the
//! tip, its sail, goes through positions of which each two that follow each other span a triangle
//! with the tip that has no other position in it. So no edge between positions can come nearer to
//! the tip than the sail, unless it crosses a side of the cone.

use std::alloc::{AllocError, Global};

/// A step of the grid, from -2^31 to 2^31 along each axis.
#[derive(Clone, Copy, PartialEq, Eq)]
pub struct Direction {
    pub x: i64,
    pub y: i64,
}

/// A corner of a sail.
#[derive(Clone, Copy)]
pub struct Corner {
    pub at: Direction,
    /// How many steps of the grid it is from the corner before; 0 at the first one.
    pub steps: i64,
}

/// The greatest distance along an axis.
const GREATEST_DISTANCE: i128 = 1 << 31;

/// More steps than Euclid's algorithm takes for numbers up to 2^31, of which two make the numbers
/// less than half as great; and more corners than a sail has, along which the distances fall, and
/// rise again, to more than twice as much each time.
const GREATEST_COUNT: usize = 128;

impl Direction {
    /// The direction of these coordinates, or None where it is too far.
    pub(crate) fn new(x: i128, y: i128) -> Option<Direction> {
        let range = -GREATEST_DISTANCE..=GREATEST_DISTANCE;
        if range.contains(&x) && range.contains(&y) {
            Some(Direction {
                x: i64::try_from(x).ok()?,
                y: i64::try_from(y).ok()?,
            })
        } else {
            None
        }
    }

    /// The shortest step of the grid in this direction, and how many of them it is. None where it
    /// has no length.
    pub fn primitive(self) -> Option<(Direction, i64)> {
        let divisor = euclid(self.x, self.y)?.divisor;
        let x = self.x.checked_div(divisor)?;
        let y = self.y.checked_div(divisor)?;
        Some((Direction { x, y }, divisor))
    }

    /// This one and so many of another one after it.
    fn plus(self, count: i128, step: Direction) -> Option<Direction> {
        Direction::new(
            i128::from(self.x).wrapping_add(count.wrapping_mul(i128::from(step.x))),
            i128::from(self.y).wrapping_add(count.wrapping_mul(i128::from(step.y))),
        )
    }

    /// From another one to this one.
    pub fn minus(self, other: Direction) -> Direction {
        Direction {
            x: self.x.wrapping_sub(other.x),
            y: self.y.wrapping_sub(other.y),
        }
    }

    /// The sum of both distances along the axes.
    pub(crate) fn length(self) -> i128 {
        i128::from(self.x.unsigned_abs()).wrapping_add(i128::from(self.y.unsigned_abs()))
    }
}

/// Twice the area of the triangle of the tip and the ends of two directions: positive where the
/// second one is less than half a turn counterclockwise from the first one.
pub fn det(one: Direction, other: Direction) -> i128 {
    let right = i128::from(one.x).wrapping_mul(i128::from(other.y));
    let left = i128::from(one.y).wrapping_mul(i128::from(other.x));
    right.wrapping_sub(left)
}

/// The greatest common divisor of two numbers, and how often each of them counts in it.
#[derive(Clone, Copy)]
struct Bezout {
    divisor: i64,
    first: i64,
    second: i64,
}

/// Euclid's algorithm. None where both numbers are 0.
fn euclid(one: i64, other: i64) -> Option<Bezout> {
    let mut last = Bezout {
        divisor: one,
        first: 1,
        second: 0,
    };
    let mut next = Bezout {
        divisor: other,
        first: 0,
        second: 1,
    };
    for _ in 0..GREATEST_COUNT {
        let Some(quotient) = last.divisor.checked_div(next.divisor) else {
            return last.made_positive();
        };
        let rest = last.less(quotient, &next);
        last = next;
        next = rest;
    }
    None
}

impl Bezout {
    /// This one less so many of another one.
    fn less(&self, count: i64, other: &Bezout) -> Bezout {
        Bezout {
            divisor: less(self.divisor, count, other.divisor),
            first: less(self.first, count, other.first),
            second: less(self.second, count, other.second),
        }
    }

    /// The same with a positive divisor, or None where it is 0.
    fn made_positive(self) -> Option<Bezout> {
        if self.divisor == 0 {
            return None;
        }
        if self.divisor > 0 {
            return Some(self);
        }
        Some(Bezout {
            divisor: self.divisor.wrapping_neg(),
            first: self.first.wrapping_neg(),
            second: self.second.wrapping_neg(),
        })
    }
}

/// A number less so many times another one.
#[inline]
fn less(one: i64, count: i64, other: i64) -> i64 {
    one.wrapping_sub(count.wrapping_mul(other))
}

/// The corners of the sail of the cone from `right` counterclockwise to `left`, which are
/// primitive: the first is `right`, the last `left`. None where the cone isn't of less than half a
/// turn. The only error is that memory was refused.
///
/// With u0 = `right` each next position of the sail is c·u1 - u0, where c is the least number that
/// leaves it in the cone. Where c is 2 the sail goes straight on, so all such steps are taken at
/// once: it takes the time of one of Euclid's algorithms.
pub fn sail(
    alloc: Global,
    right: Direction,
    left: Direction,
) -> Result<Option<Vec<Corner>>, AllocError> {
    let Some(mut run) = Run::first(right, left) else {
        return Ok(None);
    };
    let mut corners = Vec::new(alloc);
    corners.push(Corner {
        at: right,
        steps: 0,
    })?;
    for _ in 0..GREATEST_COUNT {
        let Some(end) = run.end() else {
            return Ok(None);
        };
        corners.push(end.corner)?;
        if end.height == 0 {
            return Ok(Some(corners));
        }
        let Some(next) = end.next_run() else {
            return Ok(None);
        };
        run = next;
    }
    Ok(None)
}

/// Where a sail goes straight on: from a corner to the position after it, and as far as it can. The
/// height of a position is its `det` with the left side of the cone.
#[derive(Clone, Copy)]
struct Run {
    from: Direction,
    height: i128,
    to: Direction,
    /// That of `to`, which is less.
    next_height: i128,
}

/// The end of a run.
#[derive(Clone, Copy)]
struct RunEnd {
    corner: Corner,
    height: i128,
    /// The position before, and its height.
    before: Direction,
    height_before: i128,
}

impl Run {
    /// The first run of a sail.
    fn first(right: Direction, left: Direction) -> Option<Run> {
        let height = det(right, left);
        if height <= 0 {
            return None;
        }
        let parts = euclid(right.x, right.y)?;
        if parts.divisor != 1 {
            return None;
        }
        let beside = Direction {
            x: parts.second.wrapping_neg(),
            y: parts.first,
        };
        let back = floor_div(det(beside, left), height)?;
        let to = beside.plus(back.wrapping_neg(), right)?;
        Run::between(right, height, to, det(to, left))
    }

    /// The run of these parts, or None where there is none.
    fn between(from: Direction, height: i128, to: Direction, next_height: i128) -> Option<Run> {
        if det(from, to) == 1 && 0 <= next_height && next_height < height {
            Some(Run {
                from,
                height,
                to,
                next_height,
            })
        } else {
            None
        }
    }

    /// Where it ends: at the last position that is in the cone.
    fn end(&self) -> Option<RunEnd> {
        let fall = self.height.wrapping_sub(self.next_height);
        let more = self.next_height.checked_div(fall)?;
        let step = self.to.minus(self.from);
        let at = self.to.plus(more, step)?;
        let height = self.next_height.wrapping_sub(more.wrapping_mul(fall));
        Some(RunEnd {
            corner: Corner {
                at,
                steps: i64::try_from(more.wrapping_add(1)).ok()?,
            },
            height,
            before: at.minus(step),
            height_before: height.wrapping_add(fall),
        })
    }
}

impl RunEnd {
    /// The run that begins there.
    fn next_run(&self) -> Option<Run> {
        let count = floor_div(
            self.height_before.wrapping_add(self.height).wrapping_sub(1),
            self.height,
        )?;
        let origin = Direction { x: 0, y: 0 };
        let back = origin.minus(self.before);
        let to = back.plus(count, self.corner.at)?;
        let next_height = count
            .wrapping_mul(self.height)
            .wrapping_sub(self.height_before);
        Run::between(self.corner.at, self.height, to, next_height)
    }
}

/// The quotient by a positive number, rounded down.
fn floor_div(number: i128, divisor: i128) -> Option<i128> {
    let quotient = number.checked_div(divisor)?;
    if quotient.wrapping_mul(divisor) > number {
        Some(quotient.wrapping_sub(1))
    } else {
        Some(quotient)
    }
}
