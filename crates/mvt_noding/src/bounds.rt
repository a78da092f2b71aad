//! The least and the greatest coordinates of segments.

use mvt_segments::Segment;

/// The least and the greatest coordinates of a segment, or of several.
#[derive(Clone, Copy)]
pub(crate) struct Bounds {
    left: i32,
    low: i32,
    right: i32,
    high: i32,
}

impl Bounds {
    /// Those of a segment.
    #[inline]
    pub(crate) fn of(segment: &Segment) -> Bounds {
        let (a, b) = (segment.a, segment.b);
        Bounds {
            left: a.x().min(b.x()),
            low: a.y().min(b.y()),
            right: a.x().max(b.x()),
            high: a.y().max(b.y()),
        }
    }

    /// Those of all that have these. Where there are none, nothing overlaps the answer.
    pub(crate) fn around(all: &[Bounds]) -> Bounds {
        let mut around = Bounds {
            left: i32::MAX,
            low: i32::MAX,
            right: i32::MIN,
            high: i32::MIN,
        };
        for bounds in all {
            around = around.with(bounds);
        }
        around
    }

    /// Those of both.
    #[inline]
    pub(crate) fn with(&self, other: &Bounds) -> Bounds {
        Bounds {
            left: self.left.min(other.left),
            low: self.low.min(other.low),
            right: self.right.max(other.right),
            high: self.high.max(other.high),
        }
    }

    /// The place of the middle along the x axis, from 0 to 2^32 - 1.
    #[inline]
    pub(crate) fn middle_x(&self) -> u64 {
        middle(self.left, self.right)
    }

    /// The same along the y axis.
    #[inline]
    pub(crate) fn middle_y(&self) -> u64 {
        middle(self.low, self.high)
    }

    /// Whether both have a position in common.
    #[inline]
    pub(crate) fn overlaps(&self, other: &Bounds) -> bool {
        // (no branches: half of the answers are no)
        (self.left <= other.right)
            & (other.left <= self.right)
            & (self.low <= other.high)
            & (other.low <= self.high)
    }
}

/// The middle of two coordinates, counted from the least one that there is.
#[inline]
fn middle(one: i32, other: i32) -> u64 {
    (u64::from(one.abs_diff(i32::MIN)) + u64::from(other.abs_diff(i32::MIN))) / 2
}
