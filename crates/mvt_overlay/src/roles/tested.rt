//! Which ring is around another one, by tests of some of its positions.

use crate::faces::stop::{Stop, put, spend};
use crate::roles::nesting::NO_RING;
use mvt_plane::{Point, inside};
use mvt_segments::Work;
use std::alloc::Global;

/// So many positions of a ring are tested at most.
const SAMPLES: usize = 8;

/// The work of such a test for each edge of the other ring.
const TEST_WORK: u64 = 2;

/// The least and the greatest coordinates of a ring.
#[derive(Clone, Copy)]
struct Bounds {
    left: i32,
    low: i32,
    right: i32,
    high: i32,
}

impl Bounds {
    /// Those of a ring.
    fn of(ring: &[Point]) -> Bounds {
        let mut bounds = Bounds {
            left: i32::MAX,
            low: i32::MAX,
            right: i32::MIN,
            high: i32::MIN,
        };
        for position in ring {
            bounds.left = bounds.left.min(position.x());
            bounds.low = bounds.low.min(position.y());
            bounds.right = bounds.right.max(position.x());
            bounds.high = bounds.high.max(position.y());
        }
        bounds
    }

    /// Whether the middle of others is within them.
    fn contain_middle(&self, other: &Bounds) -> bool {
        let x = (other.left / 2).wrapping_add(other.right / 2);
        let y = (other.low / 2).wrapping_add(other.high / 2);
        self.left <= x && x <= self.right && self.low <= y && y <= self.high
    }
}

/// A ring's number and its bounds.
#[derive(Clone, Copy)]
struct Candidate {
    ring: u32,
    bounds: Bounds,
}

/// By the number of each ring, that of the first one after it in this order around it, or `NO_RING`.
/// All tests are counted as work.
pub(super) fn parents_by_tests(
    alloc: Global,
    rings: &[&[Point]],
    order: &[u32],
    work: &mut Work,
) -> Result<Vec<u32>, Stop> {
    let mut parents = vec![in alloc; NO_RING; rings.len()]?;
    let candidates = candidates_in(alloc, rings, order)?;
    for at in 0..candidates.len() {
        let found = parent_by_tests(rings, &candidates[at..], work)?;
        put(&mut parents, candidates[at].ring, found)?;
    }
    Ok(parents)
}

/// The bounds of rings in this order, so that a search reads them one after another.
fn candidates_in(alloc: Global, rings: &[&[Point]], order: &[u32]) -> Result<Vec<Candidate>, Stop> {
    let mut candidates = Vec::with_capacity(alloc, order.len())?;
    for ring in order {
        let vertices = rings.get(*ring as usize).ok_or(Stop::GaveUp)?;
        candidates.push(Candidate {
            ring: *ring,
            bounds: Bounds::of(vertices),
        })?;
    }
    Ok(candidates)
}

/// The first ring around the first one of these.
fn parent_by_tests(
    rings: &[&[Point]],
    candidates: &[Candidate],
    work: &mut Work,
) -> Result<u32, Stop> {
    let Some((inner, others)) = candidates.split_first() else {
        return Ok(NO_RING);
    };
    for outer in others {
        spend(work, 1)?;
        if outer.bounds.contain_middle(&inner.bounds)
            && is_around(rings, inner.ring as usize, outer.ring as usize, work)?
        {
            return Ok(outer.ring);
        }
    }
    Ok(NO_RING)
}

/// Whether more than half of the tested positions of a ring are inside another one.
fn is_around(
    rings: &[&[Point]],
    inner: usize,
    outer: usize,
    work: &mut Work,
) -> Result<bool, Stop> {
    let inner = rings.get(inner).ok_or(Stop::GaveUp)?;
    let outer = rings.get(outer).ok_or(Stop::GaveUp)?;
    let tests = (outer.len() as u64).saturating_mul(SAMPLES as u64);
    spend(work, tests.saturating_mul(TEST_WORK))?;
    Ok(is_mostly_inside(inner, outer))
}

/// Whether more than half of the tested positions of a ring are inside another one.
fn is_mostly_inside(inner: &[Point], outer: &[Point]) -> bool {
    let mut inside_less_outside = 0_i32;
    for sample in 0..SAMPLES {
        let place = inner.len().saturating_mul(sample) / SAMPLES;
        if let Some(position) = inner.get(place) {
            let step = if inside(*position, outer) { 1 } else { -1 };
            inside_less_outside = inside_less_outside.wrapping_add(step);
        }
    }
    inside_less_outside > 0
}
