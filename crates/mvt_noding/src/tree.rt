//! A tree of bounds, by which the groups are found that overlap others.

ghost use Rattle.std.specs.Prelude.{◌≤◌, ◌<◌, OnOk};

use crate::bounds::Bounds;
use crate::packing::GROUP;
use crate::stop::{Stop, spend};
use mvt_segments::{Work, short};
use std::alloc::{AllocError, Global};

/// More levels than any tree has.
const MOST_LEVELS: u32 = 24;

/// The number of no group.
const NO_GROUP: u32 = u32::MAX;

/// Groups, groups of groups, and so on up to one, in the order of a walk from the top: each stands
/// before its members. So a search goes forward only, and passes over all members of one at once.
#[derive(Drop)]
pub(crate) struct Tree {
    nodes: Vec<Node>,
    /// Of each group the place of its node.
    places: Vec<u32>,
}

/// A group, or several.
#[derive(Clone, Copy)]
struct Node {
    bounds: Bounds,
    /// The place after all its members, or after itself where it is a group.
    after: u32,
    /// The number of the group, or `NO_GROUP`.
    group: u32,
}

/// The bounds of groups, or of groups of these.
#[derive(Drop)]
struct Level {
    bounds: Vec<Bounds>,
    /// How many groups belong to each member, but to the last one.
    groups: usize,
    /// How many nodes stand for these and for what is above them up to the member itself.
    nodes: usize,
}

impl Level {
    /// The bounds of the member that begins with a group, if there is one.
    #[inline]
    fn bounds_from(&self, group: usize) -> Option<Bounds> {
        let member = group.checked_div(self.groups)?;
        if member.saturating_mul(self.groups) == group {
            self.bounds.get(member).copied()
        } else {
            None
        }
    }
}

impl Tree {
    /// That of groups with these bounds.
    pub(crate) fn over(alloc: Global, groups: Vec<Bounds>) -> Result<Tree, AllocError> {
        let count = groups.len();
        let levels = levels_over(alloc, groups)?;
        let nodes = count_in(&levels);
        let mut tree = Tree {
            nodes: Vec::with_capacity(alloc, nodes)?,
            places: Vec::with_capacity(alloc, count)?,
        };
        for group in 0..count {
            tree.add(&levels, group, nodes)?;
        }
        Ok(tree)
    }

    /// Adds the nodes that begin with a group, the greatest first and its own last. There are so many
    /// in all.
    fn add(&mut self, levels: &[Level], group: usize, all: usize) -> Result<(), AllocError> {
        for (number, level) in levels.iter().enumerate().rev() {
            let Some(bounds) = level.bounds_from(group) else {
                continue;
            };
            let place = self.nodes.len();
            let after = short(place.saturating_add(level.nodes).min(all));
            if number == 0 {
                self.places.push(short(place))?;
            }
            self.nodes.push(Node {
                bounds,
                after,
                group: if number == 0 { short(group) } else { NO_GROUP },
            })?;
        }
        Ok(())
    }

    /// The bounds of a group.
    #[inline]
    pub(crate) fn bounds(&self, group: usize) -> Option<Bounds> {
        let place = *self.places.get(group)?;
        Some(self.nodes.get(place as usize)?.bounds)
    }

    /// The place after a group, from which on later ones stand.
    #[inline]
    pub(crate) fn after(&self, group: usize) -> usize {
        match self.places.get(group) {
            Some(place) => (*place as usize).saturating_add(1),
            None => self.nodes.len(),
        }
    }

    /// The first group from a place on whose bounds overlap these. None where there is none. The
    /// place is then after that group.
    #[inline]
    pub(crate) fn next_group(
        &self,
        place: &mut usize,
        bounds: &Bounds,
        work: &mut Work,
    ) -> Result<Option<usize>, Stop>
        ensures less { OnOk result (work.new < work.old) }
        ensures no_more { work.new ≤ work.old }
    {
        loop {
            spend(work, 1)?;
            let Some(member) = self.nodes.get(*place) else {
                return Ok(None);
            };
            if !member.bounds.overlaps(bounds) {
                *place = member.after as usize;
                continue;
            }
            *place = place.saturating_add(1);
            if member.group != NO_GROUP {
                return Ok(Some(member.group as usize));
            }
        }
    }
}

/// Groups with these bounds, and the levels above them.
fn levels_over(alloc: Global, groups: Vec<Bounds>) -> Result<Vec<Level>, AllocError> {
    let mut levels = Vec::new(alloc);
    levels.push(Level {
        bounds: groups,
        groups: 1,
        nodes: 1,
    })?;
    for _ in 0..MOST_LEVELS {
        let level = match levels.last() {
            Some(below) if below.bounds.len() > 1 => level_over(alloc, below)?,
            _ => break,
        };
        levels.push(level)?;
    }
    Ok(levels)
}

/// How many members levels have together.
fn count_in(levels: &[Level]) -> usize {
    let mut count = 0usize;
    for level in levels {
        count = count.saturating_add(level.bounds.len());
    }
    count
}

/// The level above another one.
fn level_over(alloc: Global, below: &Level) -> Result<Level, AllocError> {
    let mut bounds = Vec::with_capacity(alloc, below.bounds.len().div_ceil(GROUP))?;
    for members in below.bounds.chunks(GROUP) {
        bounds.push(Bounds::around(members))?;
    }
    Ok(Level {
        bounds,
        groups: below.groups.saturating_mul(GROUP),
        nodes: below.nodes.saturating_mul(GROUP).saturating_add(1),
    })
}
