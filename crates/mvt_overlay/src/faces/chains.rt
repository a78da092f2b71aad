//! The chains of segments that the line of a sweep meets, from below to above: where a segment ends
//! and another one begins, the chain goes on with that one in its place. So a place is searched only
//! where a chain begins and none ends.
//!
//! A list links each chain with the ones beside it. For searches the chains also stand in a tree,
//! which is a heap by numbers that are as good as random (a treap), so its height is expected to
//! grow with the binary digits of the number of chains. All steps in it are counted as work.

mod tree;

use crate::faces::NO_SEGMENT;
use crate::faces::stop::{Stop, numbered};
use mvt_plane::{Point, sweep_key};
use mvt_segments::{Segment, Work};
use std::alloc::Global;

/// What is outside of all chains: below the lowest one and above the highest one. In the tree it is
/// the parent of the root, on its left, and stands for no child too.
pub(crate) const OUTSIDE: u32 = 0;

/// No position has this key.
const NO_KEY: i64 = i64::MIN;

/// A chain of segments.
#[derive(Clone, Copy)]
struct Chain {
    /// The segment that it has: its ends and its number.
    from: Point,
    to: Point,
    segment: u32,
    /// Children in the tree.
    left: u32,
    right: u32,
    parent: u32,
    /// The chains beside it.
    below: u32,
    above: u32,
    /// The key of the segment's second end.
    end: i64,
    /// None of its children in the tree has a greater one.
    priority: u32,
}

/// All chains that the line meets.
#[derive(Drop)]
pub(crate) struct Chains {
    /// By the number of a chain.
    chains: Vec<Chain>,
    /// A chain that ended, whose place may be taken; the next such one is `above` it.
    free: u32,
}

impl Chains {
    /// No chains. The only error is that memory was refused.
    pub(crate) fn new(alloc: Global) -> Result<Chains, Stop> {
        let outside = Chain {
            from: Point::origin(),
            to: Point::origin(),
            segment: NO_SEGMENT,
            left: OUTSIDE,
            right: OUTSIDE,
            parent: OUTSIDE,
            below: OUTSIDE,
            above: OUTSIDE,
            end: NO_KEY,
            priority: u32::MAX,
        };
        Ok(Chains {
            chains: vec![in alloc; outside]?,
            free: OUTSIDE,
        })
    }

    /// A chain.
    #[inline]
    fn chain(&self, number: u32) -> Result<&Chain, Stop> {
        self.chains.get(number as usize).ok_or(Stop::GaveUp)
    }

    /// A chain, to be changed.
    #[inline]
    fn chain_mut(&mut self, number: u32) -> Result<&mut Chain, Stop> {
        self.chains.get_mut(number as usize).ok_or(Stop::GaveUp)
    }

    /// The number of a chain's segment; of what is outside `NO_SEGMENT`.
    #[inline]
    pub(crate) fn segment(&self, chain: u32) -> Result<u32, Stop> {
        Ok(self.chain(chain)?.segment)
    }

    /// The chain directly below, or what is outside.
    #[inline]
    pub(crate) fn below(&self, chain: u32) -> Result<u32, Stop> {
        Ok(self.chain(chain)?.below)
    }

    /// The chain directly above, or what is outside.
    #[inline]
    pub(crate) fn above(&self, chain: u32) -> Result<u32, Stop> {
        Ok(self.chain(chain)?.above)
    }

    /// Whether the segment of a chain ends at the position of this key.
    #[inline]
    pub(crate) fn ends_at(&self, chain: u32, key: i64) -> Result<bool, Stop> {
        Ok(self.chain(chain)?.end == key)
    }

    /// The chain directly above another one or above what is outside, whose segment is to end at
    /// the position of this key.
    #[inline]
    fn ending_above(&self, below: u32, key: i64) -> Result<u32, Stop> {
        let above = self.chain(below)?.above;
        if self.ends_at(above, key)? {
            Ok(above)
        } else {
            Err(Stop::GaveUp)
        }
    }

    /// The chain directly above this one, whose segment ends at the position of this key, goes on
    /// with another segment. Returns the chain.
    #[inline]
    pub(crate) fn go_on_above(
        &mut self,
        below: u32,
        key: i64,
        number: u32,
        segment: &Segment,
    ) -> Result<u32, Stop> {
        let going_on = self.ending_above(below, key)?;
        self.go_on(going_on, number, segment)?;
        Ok(going_on)
    }

    /// A chain, whose segment ends, goes on with another segment.
    #[inline]
    pub(crate) fn go_on(&mut self, chain: u32, number: u32, segment: &Segment) -> Result<(), Stop> {
        let chain = self.chain_mut(chain)?;
        chain.from = segment.a;
        chain.to = segment.b;
        chain.end = sweep_key(segment.b);
        chain.segment = number;
        Ok(())
    }

    /// A chain begins directly above another one or above what is outside. Returns it.
    pub(crate) fn begin_above(
        &mut self,
        below: u32,
        number: u32,
        segment: &Segment,
        work: &mut Work,
    ) -> Result<u32, Stop> {
        let above = self.chain(below)?.above;
        let begun = self.place_for(Chain {
            from: segment.a,
            to: segment.b,
            segment: number,
            left: OUTSIDE,
            right: OUTSIDE,
            parent: OUTSIDE,
            below,
            above,
            end: sweep_key(segment.b),
            priority: 0,
        })?;
        self.chain_mut(below)?.above = begun;
        self.chain_mut(above)?.below = begun;
        self.attach(begun, work)?;
        Ok(begun)
    }

    /// The chain directly above this one, whose segment ends at the position of this key, ends.
    pub(crate) fn end_above(&mut self, below: u32, key: i64, work: &mut Work) -> Result<(), Stop> {
        let ended = self.ending_above(below, key)?;
        self.detach(ended, work)?;
        let above = self.chain(ended)?.above;
        self.chain_mut(below)?.above = above;
        self.chain_mut(above)?.below = below;
        let free = self.free;
        let chain = self.chain_mut(ended)?;
        chain.above = free;
        chain.end = NO_KEY;
        self.free = ended;
        Ok(())
    }

    /// Puts a chain in a free place, or in a new one, and returns its number.
    fn place_for(&mut self, chain: Chain) -> Result<u32, Stop> {
        let free = self.free;
        if free != OUTSIDE {
            let place = self.chain_mut(free)?;
            let next = place.above;
            let priority = place.priority;
            *place = Chain { priority, ..chain };
            self.free = next;
            return Ok(free);
        }
        let number = numbered(self.chains.len())?;
        let priority = scattered(number);
        self.chains.push(Chain { priority, ..chain })?;
        Ok(number)
    }
}

/// A number that is as good as random, another one for each number: its bits are mixed by shifts and
/// by factors that are known to mix them well.
fn scattered(number: u32) -> u32 {
    let high = (number ^ (number >> 16)).wrapping_mul(0x85eb_ca6b);
    let middle = (high ^ (high >> 13)).wrapping_mul(0xc2b2_ae35);
    middle ^ (middle >> 16)
}
