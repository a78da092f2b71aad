//! A boundary after edges were taken away and others put in their place.

use crate::boundary::{NO_NUMBER, number_of};
use mvt_plane::sweep_key;
use mvt_segments::{HalfEdge, Keyed, merge_into};
use std::alloc::{AllocError, Global};

/// Edges after a change.
#[derive(Drop)]
pub(crate) struct Renumbered {
    /// The edges, in their order.
    pub(crate) edges: Vec<HalfEdge>,
    /// Of each edge before the change its number now, or `NO_NUMBER` if it is gone.
    pub(crate) numbers: Vec<u32>,
}

/// These edges, which are in their order, without those that are `removed`, and with those that are
/// `added`, in their order. Two edges of opposite directions between two positions cancel. The only
/// error is that memory was refused.
pub(crate) fn merged(
    alloc: Global,
    mut edges: Vec<HalfEdge>,
    mut removed: Vec<bool>,
    added: Vec<HalfEdge>,
) -> Result<Renumbered, AllocError> {
    let added = without_opposites(alloc, added)?;
    let mut fresh = Vec::with_capacity(alloc, added.len())?;
    for edge in &added {
        if !cancel(&edges, &mut removed, edge) {
            fresh.push(*edge)?;
        }
    }
    fresh.sort_unstable_by_key(|edge| edge.keys());
    let numbers = numbers_after(alloc, &edges, &removed, &fresh)?;
    let mut marks = removed.iter();
    edges.retain(|_| marks.next() != Some(&true));
    merge_into(&mut edges, &fresh)?;
    Ok(Renumbered { edges, numbers })
}

/// Of each edge its number once those that are removed are gone, and fresh ones are put among the
/// others; or `NO_NUMBER` if it is gone.
fn numbers_after(
    alloc: Global,
    edges: &[HalfEdge],
    removed: &[bool],
    fresh: &[HalfEdge],
) -> Result<Vec<u32>, AllocError> {
    let mut numbers = Vec::with_capacity(alloc, edges.len())?;
    let mut begin = 0;
    let mut now = 0u32;
    for other in fresh {
        let wanted = other.keys();
        let after = edges.partition_point(|edge: &HalfEdge| edge.keys() <= wanted);
        now = add_numbers(removed.get(begin..after), now, &mut numbers)?;
        now = now.wrapping_add(1);
        begin = after;
    }
    add_numbers(removed.get(begin..), now, &mut numbers)?;
    Ok(numbers)
}

/// Adds the numbers of edges that follow one another, of which the first that isn't removed has this
/// one. Returns the number after the last one.
fn add_numbers(
    removed: Option<&[bool]>,
    first: u32,
    numbers: &mut Vec<u32>,
) -> Result<u32, AllocError> {
    let mut now = first;
    for is_removed in removed.unwrap_or_default() {
        if *is_removed {
            numbers.push(NO_NUMBER)?;
        } else {
            numbers.push(now)?;
            now = now.wrapping_add(1);
        }
    }
    Ok(now)
}

/// Removes the edge of the opposite direction, if it is still there, and returns whether it was.
fn cancel(edges: &[HalfEdge], removed: &mut [bool], edge: &HalfEdge) -> bool {
    let Some(number) = number_of(edges, edge.to, edge.from) else {
        return false;
    };
    match removed.get_mut(number) {
        Some(mark) if !*mark => {
            *mark = true;
            true
        }
        _ => false,
    }
}

/// Edges without those of which another one goes the opposite way.
fn without_opposites(alloc: Global, mut edges: Vec<HalfEdge>) -> Result<Vec<HalfEdge>, AllocError> {
    edges.sort_unstable_by_key(|edge| ends_of(edge));
    let mut kept: Vec<HalfEdge> = Vec::with_capacity(alloc, edges.len())?;
    for edge in &edges {
        let opposite = match kept.last() {
            Some(last) => last.from == edge.to && last.to == edge.from,
            None => false,
        };
        if opposite {
            let _ = kept.pop();
        } else {
            kept.push(*edge)?;
        }
    }
    Ok(kept)
}

/// The keys of an edge's ends, the lesser one first.
fn ends_of(edge: &HalfEdge) -> (i64, i64) {
    let from = sweep_key(edge.from);
    let to = sweep_key(edge.to);
    (from.min(to), from.max(to))
}
