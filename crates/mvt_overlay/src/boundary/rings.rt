//! The rings along a boundary.
ghost use Rattle.std.specs.Prelude.{◌≤◌};

use crate::boundary::NO_NUMBER;
use crate::boundary::exteriors::exteriors_of;
use crate::boundary::links::Links;
use crate::groups::Groups;
use crate::outlines::Outlines;
use mvt_plane::{Point, area_part, side};
use mvt_segments::{HalfEdge, Work, short};
use std::alloc::{AllocError, Global};

/// A ring of edges.
#[derive(Clone, Copy)]
pub(crate) struct BoundaryRing {
    /// The number of its first edge, which begins at its vertex of least key.
    pub(crate) first: u32,
    /// The place of its first vertex among those of all rings.
    begin: usize,
    /// The place after its last one.
    after: usize,
    /// Twice its area: positive for an exterior, negative for a hole.
    pub(crate) area: i128,
}

/// The rings along a boundary, in the order of their first edges.
#[derive(Drop)]
pub(crate) struct Traced {
    pub(crate) rings: Vec<BoundaryRing>,
    /// Of each edge the number of its ring.
    pub(crate) ring_of: Vec<u32>,
    /// Of each ring the number of the exterior of its part: an exterior's own.
    pub(crate) exteriors: Vec<u32>,
    /// The vertices of the rings, ring by ring, each from its vertex of least key on.
    vertices: Vec<Point>,
    /// Of each the number of the old edge that the edge comes of that begins there.
    witnesses: Vec<u32>,
}

/// The rings along these edges, which are in their order. None where the work doesn't suffice, or
/// where there is a ring of no area, or a hole with nothing below it. The only error is that memory
/// was refused.
pub(crate) fn trace(
    alloc: Global,
    edges: &[HalfEdge],
    links: &Links,
    work: &mut Work,
) -> Result<Option<Traced>, AllocError>
    ensures no_more { work.new ≤ work.old }
{
    let mut traced = Traced {
        rings: Vec::new(alloc),
        ring_of: vec![in alloc; NO_NUMBER; edges.len()]?,
        exteriors: Vec::new(alloc),
        vertices: Vec::with_capacity(alloc, edges.len())?,
        witnesses: Vec::with_capacity(alloc, edges.len())?,
    };
    let mut parts = Groups::new(alloc, part_count(edges))?;
    if !traced.add_rings(edges, &links.next, &mut parts)? {
        return Ok(None);
    }
    let Some(exteriors) = exteriors_of(
        alloc,
        edges,
        &links.next,
        &traced.rings,
        &traced.ring_of,
        &mut parts,
        work,
    )?
    else {
        return Ok(None);
    };
    traced.exteriors = exteriors;
    Ok(Some(traced))
}

/// How many numbers of parts there are up to the greatest one of these edges.
fn part_count(edges: &[HalfEdge]) -> usize {
    let mut greatest = 0;
    for edge in edges {
        greatest = edge.part.max(greatest);
    }
    (greatest as usize).saturating_add(1)
}

impl Traced {
    /// Adds all rings. False where one doesn't come back, or has no area.
    fn add_rings(
        &mut self,
        edges: &[HalfEdge],
        next: &[u32],
        parts: &mut Groups,
    ) -> Result<bool, AllocError> {
        for first in 0..edges.len() {
            if self.ring_of.get(first) == Some(&NO_NUMBER)
                && !self.add_ring(edges, next, first, parts)?
            {
                return Ok(false);
            }
        }
        Ok(true)
    }

    /// Adds the ring that begins with this edge, whose edges it marks with its number. The parts of
    /// its edges become one. False where it doesn't come back, or where it has no area.
    fn add_ring(
        &mut self,
        edges: &[HalfEdge],
        next: &[u32],
        first: usize,
        parts: &mut Groups,
    ) -> Result<bool, AllocError> {
        let number = short(self.rings.len());
        let Some(HalfEdge { part, .. }) = edges.get(first).copied() else {
            return Ok(false);
        };
        let begin = self.vertices.len();
        let mut area: i128 = 0;
        let mut at = first;
        for _ in 0..edges.len() {
            let (Some(edge), Some(following)) = (edges.get(at), next.get(at)) else {
                return Ok(false);
            };
            if !self.takes(at, number) || !are_joined(parts, part, edge.part) {
                return Ok(false);
            }
            area = area.wrapping_add(i128::from(area_part(edge.from, edge.to)));
            self.add_vertex(edge)?;
            at = *following as usize;
            if at == first {
                return self.end_ring(first, begin, area);
            }
        }
        Ok(false)
    }

    /// Marks an edge with the number of its ring, and returns whether it had none before.
    #[inline]
    fn takes(&mut self, edge: usize, ring: u32) -> bool {
        match self.ring_of.get_mut(edge) {
            Some(mark) if *mark == NO_NUMBER => {
                *mark = ring;
                true
            }
            _ => false,
        }
    }

    /// Adds the vertex where an edge begins.
    #[inline]
    fn add_vertex(&mut self, edge: &HalfEdge) -> Result<(), AllocError> {
        self.vertices.push(edge.from)?;
        self.witnesses.push(edge.witness)?;
        Ok(())
    }

    /// Adds the ring of the vertices from this place on. False where it has no area.
    fn end_ring(&mut self, first: usize, begin: usize, area: i128) -> Result<bool, AllocError> {
        self.rings.push(BoundaryRing {
            first: short(first),
            begin,
            after: self.vertices.len(),
            area,
        })?;
        Ok(area != 0)
    }
}

/// Makes one part of two. False where there is no such part.
#[inline]
fn are_joined(parts: &mut Groups, one: u32, other: u32) -> bool {
    one == other || parts.join(one, other).is_some()
}

/// The number of the lowest of the edges of a ring at its vertex of least key, or `NO_NUMBER` where
/// edges don't follow one another.
pub(super) fn lowest_edge(edges: &[HalfEdge], next: &[u32], ring: &BoundaryRing) -> u32 {
    let mut at = ring.first as usize;
    let Some(begin) = edges.get(at) else {
        return NO_NUMBER;
    };
    let mut lowest = Lowest::at(begin.from, at, begin.to);
    for _ in ring.begin..ring.after {
        let (Some(edge), Some(following)) = (edges.get(at), next.get(at)) else {
            return NO_NUMBER;
        };
        lowest.compare(at, edge);
        at = *following as usize;
    }
    short(lowest.edge)
}

/// The lowest of the edges of a ring at its vertex of least key. All go to the right from there.
#[derive(Clone, Copy)]
struct Lowest {
    origin: Point,
    edge: usize,
    /// The other end.
    to: Point,
}

impl Lowest {
    /// An edge there.
    fn at(origin: Point, edge: usize, to: Point) -> Lowest {
        Lowest { origin, edge, to }
    }

    /// Compares it with an edge, which may be elsewhere.
    fn compare(&mut self, number: usize, edge: &HalfEdge) {
        let to = if edge.from == self.origin {
            edge.to
        } else if edge.to == self.origin {
            edge.from
        } else {
            return;
        };
        if side(self.origin, self.to, to).is_lt() {
            self.edge = number;
            self.to = to;
        }
    }
}

/// Adds the rings: of each polygon the exterior, and then its holes. The polygons, and the holes of
/// each, keep the order of the rings. The only error is that memory was refused.
pub(crate) fn add_outlines(
    alloc: Global,
    traced: &Traced,
    outlines: &mut Outlines,
) -> Result<(), AllocError> {
    for (_, number) in &ring_order(alloc, &traced.exteriors)? {
        if let Some(ring) = traced.rings.get(*number) {
            add_outline(alloc, traced, ring, outlines)?;
        }
    }
    Ok(())
}

/// The numbers of rings with those of their exteriors, in the order of these.
fn ring_order(alloc: Global, exteriors: &[u32]) -> Result<Vec<(u32, usize)>, AllocError> {
    let mut order = Vec::with_capacity(alloc, exteriors.len())?;
    for number in 0..exteriors.len() {
        // (a hole has its exterior's ring before it)
        order.push((exteriors[number], number))?;
    }
    order.sort_unstable();
    Ok(order)
}

/// Adds one of the rings.
fn add_outline(
    alloc: Global,
    traced: &Traced,
    ring: &BoundaryRing,
    outlines: &mut Outlines,
) -> Result<(), AllocError> {
    if let (Some(vertices), Some(witnesses)) = (
        traced.vertices.get(ring.begin..ring.after),
        traced.witnesses.get(ring.begin..ring.after),
    ) {
        outlines.rings.push(Vec::from_slice(alloc, vertices)?)?;
        outlines.witnesses.extend_from_slice(witnesses)?;
    }
    Ok(())
}
