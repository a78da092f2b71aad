//! Where two segments meet.

ghost use Rattle.std.specs.Prelude.{◌≤◌};

use crate::stop::{Stop, spend};
use mvt_plane::{Count, Edge, Hpoint, Point, common, side, sweep_key};
use mvt_segments::{Segment, Work};
use std::alloc::{AllocError, Global};
use std::cmp::Ordering;

/// The work of a split: it and the parts are sorted, and take memory, some 150 bytes.
const SPLIT_WORK: u64 = 256;

/// Where a piece is to be split.
#[derive(Clone, Copy)]
pub(crate) struct Split {
    /// The number of the piece.
    pub(crate) number: u32,
    pub(crate) at: Point,
    /// The less, the nearer to the first end of the piece.
    pub(crate) along: i64,
}

/// What a round found.
#[derive(Drop)]
pub(crate) struct Meetings {
    pub(crate) splits: Vec<Split>,
    /// How many pairs cross elsewhere than in an end of one of them.
    pub(crate) crossings: u64,
}

impl Meetings {
    /// Nothing so far.
    pub(crate) fn none(alloc: Global) -> Meetings {
        Meetings {
            splits: Vec::new(alloc),
            crossings: 0,
        }
    }

    /// Adds where two segments of these numbers meet elsewhere than in an end of both.
    pub(crate) fn add(
        &mut self,
        one: (u32, &Segment),
        other: (u32, &Segment),
        work: &mut Work,
    ) -> Result<(), Stop>
        ensures no_more { work.new ≤ work.old }
    {
        let (e, f) = (one.1, other.1);
        // (most that meet have an end in common and nothing else)
        if have_only_an_end(e, f) {
            return Ok(());
        }
        let from_side = side(e.a, e.b, f.a);
        let to_side = side(e.a, e.b, f.b);
        if are_on_one_side(from_side, to_side) {
            return Ok(());
        }
        let a_side = side(f.a, f.b, e.a);
        let b_side = side(f.a, f.b, e.b);
        if are_on_one_side(a_side, b_side) {
            return Ok(());
        }
        self.add_ends(one, f, from_side, to_side, work)?;
        self.add_ends(other, e, a_side, b_side, work)?;
        if are_beside(from_side, to_side) && are_beside(a_side, b_side) {
            return self.add_crossing(one, other, work);
        }
        Ok(())
    }

    /// Adds those ends of another segment that lie within a segment. `a_side` and `b_side` say on which
    /// side of its line they are.
    fn add_ends(
        &mut self,
        one: (u32, &Segment),
        other: &Segment,
        a_side: Ordering,
        b_side: Ordering,
        work: &mut Work,
    ) -> Result<(), Stop>
        ensures no_more { work.new ≤ work.old }
    {
        self.add_end(one, other.a, a_side, work)?;
        self.add_end(one, other.b, b_side, work)
    }

    /// Adds an end of another segment, which is on this side of the line of a segment, if it lies
    /// within that one.
    fn add_end(
        &mut self,
        one: (u32, &Segment),
        end: Point,
        side: Ordering,
        work: &mut Work,
    ) -> Result<(), Stop>
        ensures no_more { work.new ≤ work.old }
    {
        let (number, segment) = one;
        if side.is_eq() && is_between_ends(segment, end) {
            spend(work, SPLIT_WORK)?;
            self.push(number, segment, end)?;
        }
        Ok(())
    }

    /// Adds the position nearest to where two segments cross, for each of which it is no end.
    fn add_crossing(
        &mut self,
        one: (u32, &Segment),
        other: (u32, &Segment),
        work: &mut Work,
    ) -> Result<(), Stop>
        ensures no_more { work.new ≤ work.old }
    {
        spend(work, 2 * SPLIT_WORK)?;
        // (there is such a position, as it lies in the bounds of both)
        let at = crossing(one.1, other.1).ok_or(Stop::Work)?;
        self.crossings = self.crossings.saturating_add(1);
        self.push_within(one, at)?;
        self.push_within(other, at)?;
        Ok(())
    }

    /// Adds a position of a segment if it is none of its ends.
    fn push_within(&mut self, one: (u32, &Segment), at: Point) -> Result<(), AllocError> {
        let (number, segment) = one;
        if at != segment.a && at != segment.b {
            self.push(number, segment, at)?;
        }
        Ok(())
    }

    fn push(&mut self, number: u32, segment: &Segment, at: Point) -> Result<(), AllocError> {
        let along = along(segment, at);
        self.splits.push(Split { number, at, along })?;
        Ok(())
    }
}

/// Whether two positions are both on the one or both on the other side of a line, and not on it.
#[inline]
fn are_on_one_side(first: Ordering, second: Ordering) -> bool {
    first == second && first.is_ne()
}

/// Whether neither of two positions is on a line.
#[inline]
fn are_beside(first: Ordering, second: Ordering) -> bool {
    first.is_ne() && second.is_ne()
}

/// Whether two segments have an end in common, and the other end of the second one isn't on the line
/// of the first one: then they have nothing else in common.
#[inline]
fn have_only_an_end(one: &Segment, other: &Segment) -> bool {
    match end_beside_common(one, other) {
        Some(end) => side(one.a, one.b, end).is_ne(),
        None => false,
    }
}

/// Where one end of the second segment is an end of the first one, its other end.
#[inline]
fn end_beside_common(one: &Segment, other: &Segment) -> Option<Point> {
    if other.a == one.a || other.a == one.b {
        Some(other.b)
    } else if other.b == one.a || other.b == one.b {
        Some(other.a)
    } else {
        None
    }
}

/// Whether a position on the line of a segment lies on the segment and isn't one of its ends.
fn is_between_ends(segment: &Segment, position: Point) -> bool {
    let key = sweep_key(position);
    sweep_key(segment.a) < key && key < sweep_key(segment.b)
}

/// A number that grows along a segment. It may fall while its x stays.
fn along(segment: &Segment, at: Point) -> i64 {
    if segment.a.y() <= segment.b.y() {
        sweep_key(at)
    } else {
        i64::from(at.x()) * (1 << 32) - i64::from(at.y())
    }
}

/// The position nearest to where two segments cross.
fn crossing(one: &Segment, other: &Segment) -> Option<Point> {
    let e = Edge { a: one.a, b: one.b };
    let f = Edge {
        a: other.a,
        b: other.b,
    };
    nearest(&common(e, f, None, &mut Count::new())?)
}

/// The position nearest to a rational point, the one of greater coordinates where two are.
fn nearest(point: &Hpoint) -> Option<Point> {
    let x = nearest_coordinate(point.x(), point.w())?;
    let y = nearest_coordinate(point.y(), point.w())?;
    Point::new(x, y)
}

/// The number nearest to z / w.
fn nearest_coordinate(z: i128, w: i128) -> Option<i32> {
    if w <= 0 {
        return None;
    }
    let doubled = z.checked_mul(2)?.checked_add(w)?;
    let nearest = doubled.div_euclid(w.checked_mul(2)?);
    i32::try_from(nearest).ok()
}
