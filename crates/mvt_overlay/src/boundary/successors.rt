//! Which edges begin where another one ends.

use crate::boundary::{NO_NUMBER, first_from};
use crate::lists::set;
use mvt_plane::{Point, sweep_key};
use mvt_segments::{HalfEdge, WitnessRange, short};
use std::alloc::{AllocError, Global};

/// Which edges come of which old ones. Mostly an edge goes on with one of the old edge beside its own,
/// so this takes a part of the time of a search by positions.
#[derive(Drop)]
pub(super) struct Successors {
    /// The old edges, unless they are far apart.
    range: Option<WitnessRange>,
    /// Of each of them the number of an edge that comes of it and begins where no other one does, or
    /// `NO_NUMBER`.
    edges: Vec<u32>,
}

/// The first of the edges that begin at a position.
#[derive(Clone, Copy)]
pub(super) struct Following {
    /// Its number.
    pub(super) first: u32,
    /// Whether it is the only one.
    pub(super) is_only: bool,
}

impl Successors {
    /// Those of edges, which are in their order.
    pub(super) fn of(alloc: Global, edges: &[HalfEdge]) -> Result<Successors, AllocError> {
        let Some(range) = WitnessRange::of(edges, &|edge: &HalfEdge| edge.witness) else {
            return Ok(Successors {
                range: None,
                edges: Vec::new(alloc),
            });
        };
        let mut by_witness = vec![in alloc; NO_NUMBER; range.count()]?;
        for (number, edge) in edges.iter().enumerate() {
            if begins_alone(edges, number, edge.from) {
                set(&mut by_witness, range.place(edge.witness), short(number));
            }
        }
        Ok(Successors {
            range: Some(range),
            edges: by_witness,
        })
    }

    /// The first of these edges, which are in their order, that begins where this one ends, if there
    /// is one.
    #[inline]
    pub(super) fn after(&self, edges: &[HalfEdge], edge: &HalfEdge) -> Option<Following> {
        match self.beside(edges, edge) {
            Some(first) => Some(Following {
                first,
                is_only: true,
            }),
            None => found_after(edges, edge),
        }
    }

    /// The number of one that begins there alone and comes of the old edge after that of this one, or
    /// of the one before.
    #[inline]
    fn beside(&self, edges: &[HalfEdge], edge: &HalfEdge) -> Option<u32> {
        let range = self.range?;
        let next = range.place(edge.witness.wrapping_add(1));
        match self.begun_at(edges, next, edge.to) {
            Some(first) => Some(first),
            None => {
                let previous = range.place(edge.witness.wrapping_sub(1));
                self.begun_at(edges, previous, edge.to)
            }
        }
    }

    /// The number of the edge that comes of the old edge at a place, if it begins at a position.
    #[inline]
    fn begun_at(&self, edges: &[HalfEdge], place: usize, position: Point) -> Option<u32> {
        let first = *self.edges.get(place)?;
        if edges.get(first as usize)?.from == position {
            Some(first)
        } else {
            None
        }
    }
}

/// The same by a search.
pub(super) fn found_after(edges: &[HalfEdge], edge: &HalfEdge) -> Option<Following> {
    let first = first_from(edges, sweep_key(edge.to));
    if edges.get(first)?.from == edge.to {
        Some(Following {
            first: short(first),
            is_only: begins_alone(edges, first, edge.to),
        })
    } else {
        None
    }
}

/// Whether no edge beside the one of this number begins at a position.
#[inline]
fn begins_alone(edges: &[HalfEdge], number: usize, position: Point) -> bool {
    !begins_at(edges, number.wrapping_sub(1), position)
        && !begins_at(edges, number.saturating_add(1), position)
}

/// Whether there is an edge of this number, and it begins at a position.
#[inline]
fn begins_at(edges: &[HalfEdge], number: usize, position: Point) -> bool {
    match edges.get(number) {
        Some(edge) => edge.from == position,
        None => false,
    }
}
