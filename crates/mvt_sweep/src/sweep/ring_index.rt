//! Which ring a vertex is of, from the rings of every eighth one.
ghost use Rattle.std.specs.Prelude.{◌≡◌, ◌<◌, IfOk, List};
ghost use Rattle.mvt_fault.specs.declared.ring.RingEdge.{RingEdge};
ghost use Rattle.mvt_plane.specs.Position.{Position};
ghost use Rattle.mvt_sweep.specs.Calls.SweepVertices.{IsNumbered, sweep_count};
ghost use Rattle.mvt_sweep.specs.Calls.RingNotes.{AreRingsOf, IsIndexOf};
ghost use Rattle.mvt_sweep.specs.Rings.{rings_of};

use crate::sweep::listing::count_of;
use crate::sweep::vertices::SweepVertices;
use mvt_plane::Point;
use std::alloc::{AllocError, Global};

/// The ring is kept of one vertex in so many: the others' are found from there, so that the index is
/// short.
const INTERVAL: usize = 8;

/// Tells of which ring a vertex is.
#[derive(Drop)]
pub(crate) struct RingIndex {
    /// The rings of the vertices whose numbers are multiples of the interval, in their order.
    rings: Vec<u32>,
}

impl RingIndex {
    /// The index of rings. The only error is that memory was refused, or that a `u32` is too small
    /// for the number of rings or of vertices.
    pub(crate) fn new(alloc: Global, rings: &[Vec<Point>]) -> Result<RingIndex, AllocError>
        ensures { IfOk result (λ index. AreRingsOf (rings_of rings.now) index.rings.items) }
    {
        if rings.len() > u32::MAX as usize {
            return Err(AllocError);
        }
        let count = count_of(rings).ok_or(AllocError)?;
        let mut index = Vec::with_capacity(alloc, count.div_ceil(INTERVAL))?;
        let mut end = 0;
        for ring in 0..rings.len() {
            end += rings[ring].len();
            // (the vertices of earlier rings have theirs, so what is added is of this ring)
            index.resize(end.div_ceil(INTERVAL), ring as u32)?;
        }
        Ok(RingIndex { rings: index })
    }

    /// The ring of the vertex of this number: that of the last vertex up to it whose ring is kept,
    /// and one more for each vertex after that one which is the first of its ring.
    #[inline]
    pub(crate) fn ring_of(&self, vertices: &SweepVertices, number: usize) -> u32
        requires known { number < sweep_count vertices.now }
        requires indexed { (rings : List (List Position))
            × IsIndexOf rings vertices.now self.now.rings.items }
        ensures { (rings : List (List Position)) (at : RingEdge)
            → IsIndexOf rings vertices.now self.now.rings.items → IsNumbered rings number at
            → result ≡ at.ring }
    {
        let mut ring = self.rings[number / INTERVAL];
        for before in number - number % INTERVAL..number {
            if vertices.is_first(before + 1) {
                ring += 1;
            }
        }
        ring
    }
}
