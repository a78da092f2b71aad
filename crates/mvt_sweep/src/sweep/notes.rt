//! What a sweep notes of the rings that its line comes to.
ghost use Rattle.std.specs.Prelude.{◌≡◌, ℕ, ℤ, ◌<◌, List, [], IfOk, OnOk, Some, length, slice_get};
ghost use Rattle.mvt_plane.specs.Position.{Position};
ghost use Rattle.mvt_sweep.specs.Calls.SweepVertices.{AreSweepVertices, position_at};
ghost use Rattle.mvt_sweep.specs.Calls.RingNotes.{AreNotedTo, IsNew, IsNoteAbove};
ghost use Rattle.mvt_sweep.specs.Rings.{rings_of, AreProperRings};
ghost use Rattle.mvt_sweep.specs.RingsAround.{nearest_at, odd_at};
ghost use Rattle.mvt_sweep.specs.Calls.Steps.{AtFirst, IsPassed};
ghost use Rattle.mvt_sweep.specs.Swept.{IsNotedClear};
ghost use Rattle.mvt_sweep.specs.declared.sweep.vertices.SweepVertices.{SweepVertices};
ghost use Rattle.mvt_sweep.specs.declared.sweep.notes.Around.{Around};
ghost use Rattle.mvt_plane.specs.Geometry.Measure.{key_of};

use crate::sweep::ring_index::RingIndex;
use crate::sweep::vertices::SweepVertices;
use mvt_plane::Point;
use mvt_status::Split;
use std::alloc::{AllocError, Global};

/// What is noted while a line goes over all vertices of rings.
pub(crate) trait Notes: Drop {
    /// What is noted of rings, which have these vertices, is right of all vertices up to a key.
    ghost are_noted: { List (List Position) → SweepVertices → ℤ → Self → Type 0 };

    /// With nothing noted. The only error is that memory was refused.
    fn new(alloc: Global, rings: &[Vec<Point>]) -> Result<Self, AllocError>
        ensures { IfOk result (λ notes. (vertices : SweepVertices)
            → AreProperRings (rings_of rings.now) → AreSweepVertices (rings_of rings.now) vertices
            → AtFirst vertices (λ key. are_noted (rings_of rings.now) vertices key notes)) };

    /// The line went over the vertex of this number: both edges of it began there, in this place
    /// among those that the line met; or an edge ended. The only error is that memory was refused.
    fn pass(
        &mut self,
        vertices: &SweepVertices,
        number: usize,
        begun: Option<Split>,
    ) -> Result<(), AllocError>
        requires { (rings : List (List Position)) × (key : ℤ) × (edges : List ℕ)
            × are_noted rings vertices.now key self.old
            × IsPassed vertices.now key number begun edges }
        ensures { (rings : List (List Position)) (key : ℤ) (edges : List ℕ)
            → are_noted rings vertices.now key self.old
            → IsPassed vertices.now key number begun edges
            → OnOk result (are_noted rings vertices.now
            (key_of (position_at vertices.now number)) self.new) };
}

/// Nothing is noted.
#[derive(Drop)]
pub(crate) struct NoNotes;

impl Notes for NoNotes {
    ghost are_noted = { λ _ _ _ _. Unit {0} };

    fn new(_alloc: Global, _rings: &[Vec<Point>]) -> Result<NoNotes, AllocError> {
        Ok(NoNotes)
    }

    fn pass(
        &mut self,
        _vertices: &SweepVertices,
        _number: usize,
        _begun: Option<Split>,
    ) -> Result<(), AllocError> {
        Ok(())
    }
}

/// Which rings are around a ring, in eight bytes.
#[derive(Clone, Copy)]
pub(crate) enum Around {
    /// That isn't known: the line didn't come to the ring.
    Unknown,
    /// None are.
    Nothing,
    /// An even number are: this one directly, and the others around this one too.
    Even(u32),
    /// An odd number are, this one directly.
    Odd(u32),
}

impl Around {
    ghost use Rattle.std.specs.Prelude.{◌≡◌};
    ghost use Rattle.mvt_sweep.specs.Calls.RingNotes.{around_directly};
    ghost use Rattle.mvt_sweep.specs.RingsAround.{odd_in};

    /// Directly around it is this ring, and an odd number of rings are around it or an even one.
    fn directly(nearest: u32, odd: bool) -> Around
        ensures { result ≡ around_directly nearest odd }
    {
        if odd {
            Around::Odd(nearest)
        } else {
            Around::Even(nearest)
        }
    }

    /// Whether an odd number are.
    fn is_odd(self) -> bool
        ensures { result ≡ odd_in self }
    {
        matches!(self, Around::Odd(_))
    }
}

/// Of each ring which rings are around it.
#[derive(Drop)]
pub struct RingNotes {
    /// Of which ring each vertex is.
    index: RingIndex,
    /// By the number of each ring, what is around it.
    around: Vec<Around>,
    /// The rings that the line came to, in this order: each after those around it.
    come_to: Vec<u32>,
}

impl RingNotes {
    /// With nothing noted. The only error is that memory was refused, or that a `u32` is too small
    /// for the number of rings or of vertices.
    pub(crate) fn new(alloc: Global, rings: &[Vec<Point>]) -> Result<RingNotes, AllocError>
        ensures { IfOk result (IsNew (rings_of rings.now)) }
    {
        Ok(RingNotes {
            index: RingIndex::new(alloc, rings)?,
            around: vec![in alloc; Around::Unknown; rings.len()]?,
            come_to: Vec::with_capacity(alloc, rings.len())?,
        })
    }

    /// Those of no rings. The only error is that memory was refused.
    pub fn of_no_rings(alloc: Global) -> Result<RingNotes, AllocError>
        ensures { IfOk result (IsNotedClear []) }
    {
        RingNotes::new(alloc, &[])
    }

    /// The ring directly around this one, if any ring is around it.
    pub fn nearest(&self, ring: usize) -> Option<usize>
        requires { ring < length self.now.around.items }
        ensures { result ≡ nearest_at self.now.around.items ring }
    {
        match self.around[ring] {
            Around::Unknown | Around::Nothing => None,
            Around::Even(nearest) | Around::Odd(nearest) => Some(nearest as usize),
        }
    }

    /// Whether an odd number of rings are around this one.
    pub fn is_odd(&self, ring: usize) -> bool
        requires { ring < length self.now.around.items }
        ensures { result ≡ odd_at self.now.around.items ring }
    {
        self.around[ring].is_odd()
    }

    /// All rings, each after the one directly around it.
    pub fn come_to(&self) -> &[u32]
        ensures { result.now ≡ self.now.come_to.items }
    {
        &self.come_to
    }

    /// What is around a ring that the line comes to directly above an edge of another one, above an
    /// odd number of edges or an even one: what is around the other one; and that one too, where
    /// this makes the rings an odd or an even number.
    fn around_above(&self, below: u32, odd: bool) -> Around
        requires { below < length self.now.around.items }
        ensures { (around : Around) → slice_get self.now.around.items below ≡ Some around
            → IsNoteAbove around below odd result }
    {
        let around = self.around[below as usize];
        if around.is_odd() == odd {
            around
        } else {
            Around::directly(below, odd)
        }
    }
}

impl Notes for RingNotes {
    ghost are_noted = { AreNotedTo };

    fn new(alloc: Global, rings: &[Vec<Point>]) -> Result<RingNotes, AllocError> {
        RingNotes::new(alloc, rings)
    }

    fn pass(
        &mut self,
        vertices: &SweepVertices,
        number: usize,
        begun: Option<Split>,
    ) -> Result<(), AllocError> {
        let Some(place) = begun else {
            return Ok(());
        };
        let ring = self.index.ring_of(vertices, number);
        let Around::Unknown = self.around[ring as usize] else {
            return Ok(());
        };
        let around = match place.front {
            Some(edge) => {
                let below = self.index.ring_of(vertices, edge);
                self.around_above(below, place.point % 2 == 1)
            }
            None => Around::Nothing,
        };
        self.around[ring as usize] = around;
        self.come_to.push(ring)?;
        Ok(())
    }
}
