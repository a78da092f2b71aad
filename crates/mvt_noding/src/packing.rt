//! An index of the bounds of segments.

ghost use Rattle.std.specs.Prelude.{◌<◌};

use crate::bounds::Bounds;
use crate::runs::{Run, Runs, number_in, tiled};
use crate::tree::Tree;
use mvt_segments::{Segment, short};
use std::alloc::{AllocError, Global};

/// So many members has a group of groups, but for the last one, and a group of segments at most.
pub(crate) const GROUP: usize = 8;

/// The bounds of segments, of groups of neighbours, of groups of groups, and so on (a packed
/// R-tree). Neighbours along a ring lie close together, so a group has runs of these; runs that are
/// near each other are put beside each other.
#[derive(Drop)]
pub(crate) struct Packing {
    /// The numbers of the segments, group by group.
    numbers: Vec<u32>,
    /// Their bounds.
    bounds: Vec<Bounds>,
    /// Of each whether it goes on along its ring as those before it in its group do, so that it meets
    /// none of these but in an end.
    go_on: Vec<bool>,
    /// Of each group the place of its first segment, and then the number of all.
    firsts: Vec<u32>,
    /// What is above the segments.
    tree: Tree,
}

impl Packing {
    /// That of segments, of which runs of so many are kept together. No number is above `u32::MAX`.
    pub(crate) fn of(
        alloc: Global,
        segments: &[Segment],
        longest_run: usize,
    ) -> Result<Packing, AllocError> {
        let all = Runs::of(alloc, segments, longest_run)?;
        let count = all.runs.len();
        let mut groups = Groups::new(alloc, segments.len(), count)?;
        for key in &tiled(alloc, &all.runs, slice_length(count))? {
            if let Some(run) = all.runs.get(number_in(*key) as usize) {
                groups.add_run(segments, &all, run)?;
            }
        }
        drop(all);
        groups.packing(alloc)
    }

    /// How many groups of segments there are.
    pub(crate) fn group_count(&self) -> usize {
        self.firsts.len().saturating_sub(1)
    }

    /// The tree of the groups.
    #[inline]
    pub(crate) fn tree(&self) -> &Tree {
        &self.tree
    }

    /// The members of a group: the segments' numbers and bounds. None of a group that isn't there.
    #[inline]
    pub(crate) fn members(&self, group: usize) -> (&[u32], &[Bounds]) {
        let (begin, after) = self.places(group);
        match (
            self.numbers.get(begin..after),
            self.bounds.get(begin..after),
        ) {
            (Some(numbers), Some(bounds)) => (numbers, bounds),
            _ => (&[], &[]),
        }
    }

    /// Of each of these whether it goes on as those before it do.
    #[inline]
    pub(crate) fn go_on(&self, group: usize) -> &[bool] {
        let (begin, after) = self.places(group);
        self.go_on.get(begin..after).unwrap_or_default()
    }

    /// The place of the first member of a group, and that after the last one.
    #[inline]
    fn places(&self, group: usize) -> (usize, usize) {
        let begin = self.firsts.get(group).copied().unwrap_or(0);
        let after = self.firsts.get(group.saturating_add(1)).copied();
        (begin as usize, after.unwrap_or(0) as usize)
    }
}

/// Segments in groups, while these are made.
#[derive(Drop)]
struct Groups {
    numbers: Vec<u32>,
    bounds: Vec<Bounds>,
    go_on: Vec<bool>,
    firsts: Vec<u32>,
}

impl Groups {
    /// None, with room for those of so many segments in so many runs.
    fn new(alloc: Global, segments: usize, runs: usize) -> Result<Groups, AllocError> {
        Ok(Groups {
            numbers: Vec::with_capacity(alloc, segments)?,
            bounds: Vec::with_capacity(alloc, segments)?,
            go_on: Vec::with_capacity(alloc, segments)?,
            firsts: Vec::with_capacity(alloc, runs.saturating_add(1))?,
        })
    }

    /// Adds a run of these segments, to the last group if that has room for it.
    fn add_run(&mut self, segments: &[Segment], all: &Runs, run: &Run) -> Result<(), AllocError> {
        let place = short(self.numbers.len());
        let has_room = match self.firsts.last() {
            Some(first) => place.wrapping_sub(*first).wrapping_add(run.count) as usize <= GROUP,
            None => false,
        };
        if !has_room {
            self.firsts.push(place)?;
        }
        let first = run.first as usize;
        let after = first.saturating_add(run.count as usize);
        if let (Some(numbers), Some(go_on)) = (
            all.numbers.get(first..after),
            all.go_on.get(first..after),
        ) {
            self.numbers.extend_from_slice(numbers)?;
            self.go_on.extend_from_slice(go_on)?;
            self.add_bounds(segments, numbers)?;
        }
        Ok(())
    }

    /// Adds the bounds of segments, given by their numbers.
    fn add_bounds(&mut self, segments: &[Segment], numbers: &[u32]) -> Result<(), AllocError> {
        for number in numbers {
            if let Some(segment) = segments.get(*number as usize) {
                self.bounds.push(Bounds::of(segment))?;
            }
        }
        Ok(())
    }

    /// The index of these groups.
    fn packing(self, alloc: Global) -> Result<Packing, AllocError> {
        let Groups {
            numbers,
            bounds,
            go_on,
            mut firsts,
        } = self;
        firsts.push(short(numbers.len()))?;
        let groups = group_bounds(alloc, &bounds, &firsts)?;
        let tree = Tree::over(alloc, groups)?;
        Ok(Packing {
            numbers,
            bounds,
            go_on,
            firsts,
            tree,
        })
    }
}

/// The bounds of groups of segments, which begin at these places.
fn group_bounds(
    alloc: Global,
    bounds: &[Bounds],
    firsts: &[u32],
) -> Result<Vec<Bounds>, AllocError> {
    let mut groups = Vec::with_capacity(alloc, firsts.len())?;
    for ends in firsts.windows(2) {
        if let [first, after] = ends {
            let members = bounds.get(*first as usize..*after as usize);
            groups.push(Bounds::around(members.unwrap_or_default()))?;
        }
    }
    Ok(groups)
}

/// How many of so many runs a slice has: it has about as many groups of them as there are slices.
fn slice_length(count: usize) -> usize
    ensures some { 0 < result }
{
    let slices = (count / GROUP).isqrt();
    slices.saturating_add(1).saturating_mul(GROUP).max(GROUP)
}
