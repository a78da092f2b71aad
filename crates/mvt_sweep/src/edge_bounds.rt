//! The bounds of few edges, of which four at a time are held against those of another.
ghost use Rattle.std.specs.Prelude.{◌≤◌};
ghost use Rattle.mvt_sweep.specs.Calls.Sides.{AreSides};

use crate::bounds::Bounds;
use crate::sweep::FEW_VERTICES;
use std::simd::prelude::*;

/// One side of the bounds of edges, by their numbers.
type Sides = [i32; FEW_VERTICES];

/// The bounds of edges, by their numbers: a list of each side, so that four are compared at once.
#[derive(Drop)]
pub(crate) struct EdgeBounds {
    /// How many there are.
    count: usize,
    left: Sides,
    low: Sides,
    right: Sides,
    high: Sides,
    ghost lefts: { AreSides left },
    ghost lows: { AreSides low },
    ghost rights: { AreSides right },
    ghost highs: { AreSides high },
    ghost few: { count ≤ 40 },
}

impl EdgeBounds {
    ghost use Rattle.std.specs.Prelude.{◌≡◌, ◌+◌, ◌<◌, ℕ, IsTrue};
    ghost use Rattle.mvt_sweep.specs.Bounds.{AreBoundsApart};
    ghost use Rattle.mvt_sweep.specs.Calls.EdgeBounds.{bounds_count, bounds_at};

    /// Those of no edge.
    #[inline(always)]
    pub(crate) fn new() -> EdgeBounds
        ensures { bounds_count result ≡ 0 }
    {
        EdgeBounds {
            count: 0,
            left: [0; FEW_VERTICES],
            low: [0; FEW_VERTICES],
            right: [0; FEW_VERTICES],
            high: [0; FEW_VERTICES],
        }
    }

    /// Adds those of one edge more.
    #[inline(always)]
    pub(crate) fn push(&mut self, bounds: Bounds)
        requires room { bounds_count self.old < 40 }
        ensures count { bounds_count self.new ≡ bounds_count self.old + 1 }
        ensures last { bounds_at self.new (bounds_count self.old) ≡ bounds }
        ensures others { (number : ℕ) → number < bounds_count self.old
            → bounds_at self.new number ≡ bounds_at self.old number }
    {
        let number = self.count;
        self.left[number] = bounds.left;
        self.low[number] = bounds.low;
        self.right[number] = bounds.right;
        self.high[number] = bounds.high;
        self.count = number + 1;
    }

    /// Those of the edge of this number.
    #[inline(always)]
    pub(crate) fn get(&self, number: usize) -> Bounds
        requires { number < bounds_count self.now }
        ensures { result ≡ bounds_at self.now number }
    {
        Bounds {
            left: self.left[number],
            low: self.low[number],
            right: self.right[number],
            high: self.high[number],
        }
    }

    /// Whether those of four edges, from this number on, are each apart from other bounds.
    #[inline(always)]
    pub(crate) fn four_are_apart(&self, from: usize, other: &Bounds) -> bool
        requires { from + 4 ≤ bounds_count self.now }
        ensures { IsTrue result → (number : ℕ) → from ≤ number → number < from + 4
            → AreBoundsApart (bounds_at self.now number) other.now }
    {
        let before = i32x4::from_slice(&self.right[from..]).simd_lt(Simd::splat(other.left));
        let after = i32x4::from_slice(&self.left[from..]).simd_gt(Simd::splat(other.right));
        let below = i32x4::from_slice(&self.high[from..]).simd_lt(Simd::splat(other.low));
        let above = i32x4::from_slice(&self.low[from..]).simd_gt(Simd::splat(other.high));
        (before | after | below | above).all()
    }
}
