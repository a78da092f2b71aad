//! The chains of edges that the line of a sweep meets: where an edge ends and the next one of its
//! ring begins, the chain goes on with that one. A chain has the number of the edge that it began
//! with.
ghost use Rattle.std.specs.Prelude.{◌<◌, ◌≤◌, ◌^◌, length};

use crate::sweep::vertices::SweepVertices;
use std::alloc::{AllocError, Global};

/// The chains beside a chain. The number of all edges stands for what is outside: below the lowest
/// chain and above the highest one.
#[derive(Clone, Copy)]
pub(crate) struct Link {
    /// The chain directly below.
    pub(crate) below: u32,
    /// The chain directly above.
    pub(crate) above: u32,
}

/// Which edges the chains have, and which chains are neighbours.
#[derive(Drop)]
pub(crate) struct Chains {
    /// By the number of a chain its edge, and by the number of that edge the chain.
    twins: Vec<u32>,
    /// By the number of a chain its neighbours, and by the number of what is outside the highest
    /// chain and the lowest one.
    links: Vec<Link>,
    ghost few: { length twins.items < 2 ^ 32 },
    ghost few_links: { length links.items ≤ 2 ^ 32 },
}

impl Chains {
    ghost use Rattle.std.specs.Prelude.{◌≡◌, ◌<◌, ◌≤◌, ◌==◌, ℕ, [], IfOk, cond, length, slice_set};
    ghost use Rattle.mvt_sweep.specs.Calls.Chains.{AreChains, above_of, below_of, edge_beside, edge_of, outside_of};

    /// No chains, of the edges of these vertices. The only error is that memory was refused.
    pub(crate) fn new(alloc: Global, vertices: &SweepVertices) -> Result<Chains, AllocError>
        ensures { IfOk result (λ chains. AreChains vertices.now chains []) }
    {
        let outside = vertices.len() as u32;
        let none = Link {
            below: outside,
            above: outside,
        };
        Ok(Chains {
            twins: vec![in alloc; 0_u32; vertices.len()]?,
            links: vec![in alloc; none; vertices.len() + 1]?,
        })
    }

    /// The number that stands for what is outside.
    #[inline]
    pub(crate) fn outside(&self) -> usize
        ensures { result ≡ length self.now.twins.items }
    {
        self.twins.len()
    }

    /// The edge of a chain, or the chain of an edge.
    #[inline]
    pub(crate) fn twin(&self, number: usize) -> usize
        requires { number < length self.now.twins.items }
        ensures { result ≡ edge_of self.now number }
    {
        self.twins[number] as usize
    }

    /// The edge of a chain, if it isn't what is outside.
    #[inline]
    fn edge(&self, chain: usize) -> Option<usize>
        requires { chain ≤ length self.now.twins.items }
        ensures { result ≡ edge_beside self.now chain }
    {
        if chain == self.outside() {
            None
        } else {
            Some(self.twin(chain))
        }
    }

    /// The edge directly below a chain, if there is one.
    #[inline]
    pub(crate) fn edge_below(&self, chain: usize) -> Option<usize>
        requires within { chain < length self.now.links.items }
        requires known { below_of self.now chain ≤ length self.now.twins.items }
        ensures { result ≡ edge_beside self.now (below_of self.now chain) }
    {
        self.edge(self.links[chain].below as usize)
    }

    /// The edge directly above a chain, if there is one.
    #[inline]
    pub(crate) fn edge_above(&self, chain: usize) -> Option<usize>
        requires within { chain < length self.now.links.items }
        requires known { above_of self.now chain ≤ length self.now.twins.items }
        ensures { result ≡ edge_beside self.now (above_of self.now chain) }
    {
        self.edge(self.links[chain].above as usize)
    }

    /// The lowest chain, or else what is outside.
    #[inline]
    pub(crate) fn lowest(&self) -> usize
        requires { outside_of self.now < length self.now.links.items }
        ensures { result ≡ above_of self.now (outside_of self.now) }
    {
        self.links[self.outside()].above as usize
    }

    /// The highest chain, or else what is outside.
    #[inline]
    pub(crate) fn highest(&self) -> usize
        requires { outside_of self.now < length self.now.links.items }
        ensures { result ≡ below_of self.now (outside_of self.now) }
    {
        self.links[self.outside()].below as usize
    }

    /// A chain goes on with another edge.
    #[inline]
    pub(crate) fn go_on(&mut self, chain: usize, edge: usize)
        requires chain { chain < length self.old.twins.items }
        requires edge { edge < length self.old.twins.items }
        ensures twins { self.new.twins.items
            ≡ slice_set (slice_set self.old.twins.items chain edge) edge chain }
        ensures links { self.new.links.items ≡ self.old.links.items }
    {
        self.twins[chain] = edge as u32;
        self.twins[edge] = chain as u32;
    }

    /// Begins two chains, the lower one first, above a chain or above what is outside. Each has its
    /// own number for its edge.
    pub(crate) fn begin_two(&mut self, below: usize, lower: usize, upper: usize)
        requires below { below ≤ outside_of self.old }
        requires lower { lower < outside_of self.old }
        requires upper { upper < outside_of self.old }
        requires above { above_of self.old below ≤ outside_of self.old }
        requires links { outside_of self.old < length self.old.links.items }
        ensures twins { self.new.twins.items
            ≡ slice_set (slice_set self.old.twins.items lower lower) upper upper }
        ensures size { length self.new.links.items ≡ length self.old.links.items }
        ensures above { (chain : ℕ) → above_of self.new chain
            ≡ cond (chain == upper) (above_of self.old below)
            (cond (chain == lower) upper (cond (chain == below) lower (above_of self.old chain))) }
        ensures below { (chain : ℕ) → below_of self.new chain
            ≡ cond (chain == above_of self.old below) upper
            (cond (chain == upper) lower (cond (chain == lower) below (below_of self.old chain))) }
    {
        let above = self.links[below].above as usize;
        self.twins[lower] = lower as u32;
        self.twins[upper] = upper as u32;
        self.link(below, lower);
        self.link(lower, upper);
        self.link(upper, above);
    }

    /// Ends two neighbours, the lower one first.
    pub(crate) fn end_two(&mut self, lower: usize, upper: usize)
        requires lower { lower < length self.old.links.items }
        requires upper { upper < length self.old.links.items }
        requires below { below_of self.old lower < length self.old.links.items }
        requires above { above_of self.old upper < length self.old.links.items }
        ensures twins { self.new.twins.items ≡ self.old.twins.items }
        ensures size { length self.new.links.items ≡ length self.old.links.items }
        ensures above { (chain : ℕ) → above_of self.new chain
            ≡ cond (chain == below_of self.old lower) (above_of self.old upper)
            (above_of self.old chain) }
        ensures below { (chain : ℕ) → below_of self.new chain
            ≡ cond (chain == above_of self.old upper) (below_of self.old lower)
            (below_of self.old chain) }
    {
        let below = self.links[lower].below as usize;
        let above = self.links[upper].above as usize;
        self.link(below, above);
    }

    /// Makes two chains neighbours.
    #[inline]
    fn link(&mut self, lower: usize, upper: usize)
        requires lower { lower < length self.old.links.items }
        requires upper { upper < length self.old.links.items }
        ensures twins { self.new.twins.items ≡ self.old.twins.items }
        ensures size { length self.new.links.items ≡ length self.old.links.items }
        ensures above { (chain : ℕ) → above_of self.new chain
            ≡ cond (chain == lower) upper (above_of self.old chain) }
        ensures below { (chain : ℕ) → below_of self.new chain
            ≡ cond (chain == upper) lower (below_of self.old chain) }
    {
        self.links[lower].above = upper as u32;
        self.links[upper].below = lower as u32;
    }
}
