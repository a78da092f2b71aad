//! The chains as a tree: on the left of each are those below it, on the right those above it.

use super::{Chain, Chains, OUTSIDE};
use crate::faces::stop::{Stop, spend};
use mvt_plane::side;
use mvt_segments::{Segment, Work};

impl Chain {
    /// Whether it is below the position where segments begin, or where its line goes through that,
    /// below the lowest one, or along that, below the highest one.
    #[inline]
    fn is_below(&self, lowest: &Segment, highest: &Segment) -> bool {
        let begin = side(self.from, self.to, lowest.a);
        if begin.is_ne() {
            return begin.is_gt();
        }
        let end = side(self.from, self.to, lowest.b);
        if end.is_ne() {
            return end.is_gt();
        }
        side(self.from, self.to, highest.b).is_gt()
    }
}

impl Chains {
    /// The highest chain that is below a position, or else what is outside. A chain whose line goes
    /// through the position is compared with where the segments that begin there go: the lowest one,
    /// or if that goes along the chain, the highest one.
    pub(crate) fn find_below(
        &self,
        lowest: &Segment,
        highest: &Segment,
        work: &mut Work,
    ) -> Result<u32, Stop> {
        let mut below = OUTSIDE;
        let mut at = self.chain(OUTSIDE)?.left;
        for step in 0..self.chains.len() {
            if at == OUTSIDE {
                spend(work, step as u64)?;
                return Ok(below);
            }
            let chain = self.chain(at)?;
            if chain.is_below(lowest, highest) {
                below = at;
                at = chain.right;
            } else {
                at = chain.left;
            }
        }
        Err(Stop::GaveUp)
    }

    /// Puts a chain that stands in the list into the tree: of it and the ones beside it one has no
    /// child on the side of the other.
    pub(super) fn attach(&mut self, number: u32, work: &mut Work) -> Result<(), Stop> {
        let chain = *self.chain(number)?;
        let is_right = chain.below != OUTSIDE && self.chain(chain.below)?.right == OUTSIDE;
        let parent = if is_right { chain.below } else { chain.above };
        self.chain_mut(number)?.parent = parent;
        let upper = self.chain_mut(parent)?;
        if is_right {
            upper.right = number;
        } else {
            upper.left = number;
        }
        self.rise(number, work)
    }

    /// Takes a chain out of the tree.
    pub(super) fn detach(&mut self, number: u32, work: &mut Work) -> Result<(), Stop> {
        self.sink(number, work)?;
        let chain = *self.chain(number)?;
        let child = if chain.left == OUTSIDE {
            chain.right
        } else {
            chain.left
        };
        self.replace_child(chain.parent, number, child)
    }

    /// Brings a chain up the tree, until its parent has no lesser priority.
    fn rise(&mut self, number: u32, work: &mut Work) -> Result<(), Stop> {
        for _ in 0..self.chains.len() {
            let chain = *self.chain(number)?;
            if chain.priority <= self.chain(chain.parent)?.priority {
                return Ok(());
            }
            spend(work, 1)?;
            self.turn_up(number)?;
        }
        Err(Stop::GaveUp)
    }

    /// Brings a chain down the tree, until it has at most one child.
    fn sink(&mut self, number: u32, work: &mut Work) -> Result<(), Stop> {
        for _ in 0..self.chains.len() {
            let Chain { left, right, .. } = *self.chain(number)?;
            if left == OUTSIDE || right == OUTSIDE {
                return Ok(());
            }
            spend(work, 1)?;
            let is_left_first = self.chain(right)?.priority < self.chain(left)?.priority;
            self.turn_up(if is_left_first { left } else { right })?;
        }
        Err(Stop::GaveUp)
    }

    /// Brings a chain above its parent in the tree, whose child it was.
    fn turn_up(&mut self, number: u32) -> Result<(), Stop> {
        let Chain {
            left,
            right,
            parent,
            ..
        } = *self.chain(number)?;
        let upper = *self.chain(parent)?;
        let is_left = upper.left == number;
        self.replace_child(parent, number, if is_left { right } else { left })?;
        self.replace_child(upper.parent, parent, number)?;
        self.chain_mut(parent)?.parent = number;
        let chain = self.chain_mut(number)?;
        if is_left {
            chain.right = parent;
        } else {
            chain.left = parent;
        }
        Ok(())
    }

    /// Puts a child in the place of another one.
    fn replace_child(&mut self, parent: u32, old: u32, new: u32) -> Result<(), Stop> {
        let upper = self.chain_mut(parent)?;
        if upper.left == old {
            upper.left = new;
        } else {
            upper.right = new;
        }
        if new != OUTSIDE {
            self.chain_mut(new)?.parent = parent;
        }
        Ok(())
    }
}
