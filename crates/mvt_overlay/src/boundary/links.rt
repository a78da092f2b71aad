//! Which edge of a boundary follows which.

use crate::boundary::NO_NUMBER;
use crate::boundary::successors::{Following, Successors, found_after};
use crate::lists::set;
use mvt_plane::{Point, side};
use mvt_segments::{HalfEdge, short};
use std::alloc::{AllocError, Global};
use std::cmp::Ordering;

/// An edge as it is seen from one of its ends.
#[derive(Clone, Copy)]
pub(crate) struct Spoke {
    /// Its number.
    pub(crate) edge: u32,
    /// Its other end.
    pub(crate) to: Point,
    /// Whether it begins here.
    pub(crate) leaves: bool,
}

/// A position where more than one edge begins.
#[derive(Clone, Copy)]
pub(crate) struct Touch {
    pub(crate) position: Point,
    /// The number of the first edge that begins there.
    pub(crate) edge: u32,
    /// Where its spokes begin in the list of all spokes.
    pub(crate) first: usize,
    /// Where they end.
    pub(crate) after: usize,
}

/// How the edges of a boundary go on.
#[derive(Drop)]
pub(crate) struct Links {
    /// Of each edge the number of the next one of its ring.
    pub(crate) next: Vec<u32>,
    /// The positions where more than one edge begins, in the order of their keys.
    pub(crate) touches: Vec<Touch>,
    /// The spokes of each of these, counterclockwise, from one on that leaves.
    pub(crate) spokes: Vec<Spoke>,
}

/// How edges go on, which are in their order: at each position from one that ends there to the
/// next one clockwise, so that rings go round one filled wedge. None where edges don't leave
/// positions and arrive there in turn, or are too many to be numbered. The only error is that memory
/// was refused.
pub(crate) fn links_of(alloc: Global, edges: &[HalfEdge]) -> Result<Option<Links>, AllocError> {
    if edges.len() >= NO_NUMBER as usize {
        return Ok(None);
    }
    let successors = Successors::of(alloc, edges)?;
    let mut links = Links::with_next(alloc, Vec::with_capacity(alloc, edges.len())?);
    let mut arrivals = Vec::new(alloc);
    for (number, edge) in edges.iter().enumerate() {
        let Some(Following { first, is_only }) = successors.after(edges, edge) else {
            return Ok(None);
        };
        links.next.push(first)?;
        if !is_only {
            let edge = short(number);
            arrivals.push(Arrival { first, edge })?;
        }
    }
    links.with_touches(alloc, edges, arrivals)
}

/// The same of edges after a change, where these are the links before it. `numbers` has of each edge
/// its number now, if it is still there. Of those marked as `stale` begin others at their position
/// too, or did, or an edge there was taken away or added.
pub(crate) fn links_after(
    alloc: Global,
    edges: &[HalfEdge],
    before: Links,
    numbers: &[u32],
    stale: &[bool],
) -> Result<Option<Links>, AllocError> {
    if edges.len() >= NO_NUMBER as usize {
        return Ok(None);
    }
    let next = next_after(alloc, edges.len(), &before.next, numbers, stale)?;
    drop(before);
    let mut links = Links::with_next(alloc, next);
    let mut arrivals = Vec::new(alloc);
    for (number, edge) in edges.iter().enumerate() {
        if links.next.get(number) != Some(&NO_NUMBER) {
            continue;
        }
        let Some(Following { first, is_only }) = found_after(edges, edge) else {
            return Ok(None);
        };
        let edge = short(number);
        links.link(edge, first);
        if !is_only {
            arrivals.push(Arrival { first, edge })?;
        }
    }
    links.with_touches(alloc, edges, arrivals)
}

/// Of each of so many edges the number of the next one, as far as neither is new or stale, or else
/// `NO_NUMBER`.
fn next_after(
    alloc: Global,
    count: usize,
    before: &[u32],
    numbers: &[u32],
    stale: &[bool],
) -> Result<Vec<u32>, AllocError> {
    let mut next = vec![in alloc; NO_NUMBER; count]?;
    for (number, following) in numbers.iter().zip(before) {
        if let Some(now) = number_now(numbers, stale, *following) {
            set(&mut next, *number as usize, now);
        }
    }
    Ok(next)
}

/// The number of an edge now, unless it is stale.
#[inline]
fn number_now(numbers: &[u32], stale: &[bool], edge: u32) -> Option<u32> {
    if *stale.get(edge as usize)? {
        None
    } else {
        numbers.get(edge as usize).copied()
    }
}

/// An edge that ends where several begin.
#[derive(Clone, Copy)]
struct Arrival {
    /// The number of the first edge that begins there.
    first: u32,
    /// Its own number.
    edge: u32,
}

impl Links {
    /// Those with no touches.
    fn with_next(alloc: Global, next: Vec<u32>) -> Links {
        Links {
            next,
            touches: Vec::new(alloc),
            spokes: Vec::new(alloc),
        }
    }

    /// The same with the positions where several edges begin, at which these arrive. None where edges
    /// don't leave and arrive in turn there.
    fn with_touches(
        mut self,
        alloc: Global,
        edges: &[HalfEdge],
        arrivals: Vec<Arrival>,
    ) -> Result<Option<Links>, AllocError> {
        if self.add_touches(alloc, edges, arrivals)? {
            Ok(Some(self))
        } else {
            Ok(None)
        }
    }

    /// Notes that one edge follows another.
    fn link(&mut self, edge: u32, following: u32) {
        set(&mut self.next, edge as usize, following);
    }

    /// Adds the positions where several edges begin, at which these arrive. Returns whether they leave
    /// and arrive in turn.
    fn add_touches(
        &mut self,
        alloc: Global,
        edges: &[HalfEdge],
        mut arrivals: Vec<Arrival>,
    ) -> Result<bool, AllocError> {
        arrivals.sort_unstable_by_key(|arrival| (arrival.first, arrival.edge));
        for at_one in arrivals.chunk_by(|one, other| one.first == other.first) {
            if !self.add_touch(alloc, edges, at_one)? {
                return Ok(false);
            }
        }
        Ok(true)
    }

    /// The same of one position.
    fn add_touch(
        &mut self,
        alloc: Global,
        edges: &[HalfEdge],
        arrivals: &[Arrival],
    ) -> Result<bool, AllocError> {
        let Some(Arrival { first, .. }) = arrivals.first().copied() else {
            return Ok(true);
        };
        let Some(edge) = edges.get(first as usize) else {
            return Ok(false);
        };
        let round = spokes_round(alloc, edges, first, edge.from, arrivals)?;
        let touch = Touch {
            position: edge.from,
            edge: first,
            first: self.spokes.len(),
            after: self.spokes.len().wrapping_add(round.len()),
        };
        if !self.link_round(&round) {
            return Ok(false);
        }
        self.spokes.extend_from_slice(&round)?;
        self.touches.push(touch)?;
        Ok(true)
    }

    /// Links each edge that ends at a position to the one before it in the round. Returns whether
    /// they leave and arrive in turn.
    fn link_round(&mut self, round: &[Spoke]) -> bool {
        if round.len() % 2 != 0 {
            return false;
        }
        let mut before = NO_NUMBER;
        for at in 0..round.len() {
            let spoke = round[at];
            if spoke.leaves != (at % 2 == 0) {
                return false;
            }
            if !spoke.leaves {
                self.link(spoke.edge, before);
            }
            before = spoke.edge;
        }
        true
    }
}

/// The spokes at a position, counterclockwise, from one on that leaves: the edges that begin there,
/// of which the first has this number, and those that arrive.
fn spokes_round(
    alloc: Global,
    edges: &[HalfEdge],
    first: u32,
    position: Point,
    arrivals: &[Arrival],
) -> Result<Vec<Spoke>, AllocError> {
    let mut round = Vec::with_capacity(alloc, arrivals.len().saturating_mul(2))?;
    add_leaving(edges, first, position, &mut round)?;
    add_arriving(edges, arrivals, &mut round)?;
    round.sort_unstable_by(|one, other| round_order(position, one.to, other.to));
    if !round.is_empty() && !round[0].leaves {
        round.rotate_left(1);
    }
    Ok(round)
}

/// Adds the spokes that begin at a position, of which the first edge has this number.
fn add_leaving(
    edges: &[HalfEdge],
    first: u32,
    position: Point,
    round: &mut Vec<Spoke>,
) -> Result<(), AllocError> {
    let mut edge = first;
    for leaving in edges.get(first as usize..).unwrap_or_default() {
        if leaving.from != position {
            break;
        }
        round.push(Spoke {
            edge,
            to: leaving.to,
            leaves: true,
        })?;
        edge = edge.wrapping_add(1);
    }
    Ok(())
}

/// Adds the spokes that arrive there.
fn add_arriving(
    edges: &[HalfEdge],
    arrivals: &[Arrival],
    round: &mut Vec<Spoke>,
) -> Result<(), AllocError> {
    for arrival in arrivals {
        if let Some(arriving) = edges.get(arrival.edge as usize) {
            round.push(Spoke {
                edge: arrival.edge,
                to: arriving.from,
                leaves: false,
            })?;
        }
    }
    Ok(())
}

/// How two positions follow each other round a third one, counterclockwise from the direction of the
/// x axis on.
fn round_order(round: Point, one: Point, other: Point) -> Ordering {
    let one_turned = is_turned(round, one);
    let other_turned = is_turned(round, other);
    if one_turned != other_turned {
        return one_turned.cmp(&other_turned);
    }
    side(round, other, one)
}

/// Whether a position is half a turn or more counterclockwise from the direction of the x axis.
fn is_turned(round: Point, position: Point) -> bool {
    position.y() < round.y() || (position.y() == round.y() && position.x() < round.x())
}
