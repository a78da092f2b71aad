//! What is between two edges that follow each other round a position.

use crate::boundary::{Spoke, number_of};
use crate::sail::{Direction, det};
use mvt_plane::{Point, side};
use mvt_segments::HalfEdge;

/// The wedge from the spoke on its right counterclockwise to the one on its left.
#[derive(Clone, Copy)]
pub(crate) struct Wedge {
    pub(crate) tip: Point,
    pub(crate) right: Spoke,
    pub(crate) left: Spoke,
}

impl Wedge {
    /// Whether it is filled: what is on the left of the edge that leaves is.
    pub(crate) fn is_filled(&self) -> bool {
        self.right.leaves
    }

    /// Whether it is less than half a turn.
    pub(crate) fn is_narrow(&self) -> bool {
        side(self.tip, self.right.to, self.left.to).is_gt()
    }

    /// Whether it is wider than another one at its tip. Of several at most one isn't narrow.
    pub(crate) fn is_wider_than(&self, other: &Wedge) -> bool {
        if !self.is_narrow() || !other.is_narrow() {
            return other.is_narrow();
        }
        // (the cotangent falls with the angle; each number is at most 2^63 in size)
        let (along, across) = self.opening();
        let (its_along, its_across) = other.opening();
        along.wrapping_mul(its_across) < its_along.wrapping_mul(across)
    }

    /// The cosine and the sine of its angle, both times the lengths of its sides.
    fn opening(&self) -> (i128, i128) {
        let right = step_between(self.tip, self.right.to);
        let left = step_between(self.tip, self.left.to);
        let x = i128::from(right.x).wrapping_mul(i128::from(left.x));
        let y = i128::from(right.y).wrapping_mul(i128::from(left.y));
        (x.wrapping_add(y), det(right, left))
    }

    /// Whether a cut of it takes a whole ring of three vertices away.
    pub(crate) fn vanishes(&self, edges: &[HalfEdge]) -> bool {
        if !self.is_narrow() || !self.is_primitive() {
            return false;
        }
        let (from, to) = if self.is_filled() {
            (self.right.to, self.left.to)
        } else {
            (self.left.to, self.right.to)
        };
        number_of(edges, from, to).is_some()
    }

    /// Whether both of its edges are the shortest in their directions.
    fn is_primitive(&self) -> bool {
        is_shortest(self.tip, self.right.to) && is_shortest(self.tip, self.left.to)
    }
}

/// Whether no position of the grid is between two others.
fn is_shortest(from: Point, to: Point) -> bool {
    match step_between(from, to).primitive() {
        Some((_, count)) => count == 1,
        None => false,
    }
}

/// The step from one position to another.
pub(crate) fn step_between(from: Point, to: Point) -> Direction {
    Direction {
        x: i64::from(to.x()).wrapping_sub(i64::from(from.x())),
        y: i64::from(to.y()).wrapping_sub(i64::from(from.y())),
    }
}

/// The position at this step from another one, or None where it is out of range.
pub(crate) fn position_at(from: Point, step: Direction) -> Option<Point> {
    let x = i64::from(from.x()).wrapping_add(step.x);
    let y = i64::from(from.y()).wrapping_add(step.y);
    Point::new(i32::try_from(x).ok()?, i32::try_from(y).ok()?)
}
