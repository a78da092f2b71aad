//! The boundary of what is filled: edges with what is filled on their left, and the rings along
//! them. The order of edges is by the keys of their ends, first the one where they begin.

mod exteriors;
mod links;
mod merging;
mod rings;
mod successors;

use links::links_of;
pub(crate) use links::{Links, Spoke, Touch, links_after};
pub(crate) use merging::{Renumbered, merged};
use mvt_plane::{Point, sweep_key};
use mvt_segments::{HalfEdge, Keyed};
pub(crate) use rings::{BoundaryRing, Traced, add_outlines, trace};
use std::alloc::{AllocError, Global};

/// The number of no edge, and of no ring.
pub(crate) const NO_NUMBER: u32 = u32::MAX;

/// Edges in their order, and how they go on.
#[derive(Drop)]
pub(crate) struct Boundary {
    pub(crate) edges: Vec<HalfEdge>,
    pub(crate) links: Links,
}

impl Boundary {
    /// That of these edges, which are in their order. None where they are no boundary. The only error
    /// is that memory was refused.
    pub(crate) fn of(alloc: Global, edges: Vec<HalfEdge>) -> Result<Option<Boundary>, AllocError> {
        match links_of(alloc, &edges)? {
            Some(links) => Ok(Some(Boundary { edges, links })),
            None => Ok(None),
        }
    }
}

/// The number of the first of these edges, which are in their order, that begins at no lesser key.
pub(crate) fn first_from(edges: &[HalfEdge], key: i64) -> usize {
    edges.partition_point(|edge| sweep_key(edge.from) < key)
}

/// Whether one of these edges, which are in their order, begins at a position.
pub(crate) fn is_vertex(edges: &[HalfEdge], position: Point) -> bool {
    match edges.get(first_from(edges, sweep_key(position))) {
        Some(edge) => edge.from == position,
        None => false,
    }
}

/// The number of the edge from one position to another among these edges, which are in their order.
pub(crate) fn number_of(edges: &[HalfEdge], from: Point, to: Point) -> Option<usize> {
    let wanted = (sweep_key(from), sweep_key(to));
    let at = edges.partition_point(|edge| edge.keys() < wanted);
    let edge = edges.get(at)?;
    if edge.from == from && edge.to == to {
        Some(at)
    } else {
        None
    }
}
