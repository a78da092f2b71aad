//! The edges of the rings that were given, by number and along rings.

use crate::near::edge_at;
use mvt_plane::{Point, sweep_key};
use mvt_segments::short;
use std::alloc::{AllocError, Global};

/// The number of no edge.
pub(crate) const NO_EDGE: u32 = u32::MAX;

/// How many rings that begin at one position are looked at.
const FEW_RINGS: usize = 8;

/// The edges of rings that have a length: each has its number in the order of the rings, and of the
/// vertices where they begin.
#[derive(Drop)]
pub(crate) struct OldEdges {
    /// Of each edge its ring and the vertex where it begins.
    places: Vec<(u32, u32)>,
    /// Of each ring the number of its first edge, and then the number of all edges.
    firsts: Vec<u32>,
    /// The keys of the positions where rings begin, with the rings' numbers, in their order.
    beginnings: Vec<(i64, u32)>,
}

impl OldEdges {
    /// Those of the rings.
    pub(crate) fn of(alloc: Global, rings: &[Vec<Point>]) -> Result<OldEdges, AllocError> {
        let mut edges = OldEdges {
            places: Vec::with_capacity(alloc, count_of(rings))?,
            firsts: Vec::with_capacity(alloc, rings.len().saturating_add(1))?,
            beginnings: Vec::with_capacity(alloc, rings.len())?,
        };
        edges.firsts.push(0)?;
        for ring in 0..rings.len() {
            edges.add_ring(ring, &rings[ring])?;
        }
        edges.beginnings.sort_unstable();
        Ok(edges)
    }

    /// Adds the edges of a ring.
    fn add_ring(&mut self, ring: usize, vertices: &[Point]) -> Result<(), AllocError> {
        if let Some(first) = vertices.first() {
            self.beginnings.push((sweep_key(*first), short(ring)))?;
        }
        for vertex in 0..vertices.len() {
            let edge = edge_at(vertices, vertex);
            if edge.a != edge.b {
                self.places.push((short(ring), short(vertex)))?;
            }
        }
        self.firsts.push(short(self.places.len()))?;
        Ok(())
    }

    /// The ring of an edge, and the vertex where it begins.
    #[inline]
    pub(crate) fn place(&self, number: u32) -> Option<(usize, usize)> {
        let (ring, vertex) = *self.places.get(number as usize)?;
        Some((ring as usize, vertex as usize))
    }

    /// Adds, for each vertex of a ring, the number of the edge that begins there, or `NO_EDGE` where
    /// none is found.
    pub(crate) fn add_numbers(
        &self,
        rings: &[Vec<Point>],
        ring: &[Point],
        numbers: &mut Vec<u32>,
    ) -> Result<(), AllocError> {
        let mut number = NO_EDGE;
        for vertex in 0..ring.len() {
            let edge = edge_at(ring, vertex);
            number = self.number_of(rings, edge.a, edge.b, number);
            numbers.push(number)?;
        }
        Ok(())
    }

    /// The number of the first edge of the ring that was given and has these vertices, from the same
    /// one on, if there is one and all of its edges have a length: then those of the others follow.
    pub(crate) fn first_of_same(&self, rings: &[Vec<Point>], ring: &[Point]) -> Option<u32> {
        let key = sweep_key(*ring.first()?);
        let begin = self.first_beginning(key);
        for at in begin..begin.saturating_add(FEW_RINGS) {
            let (its_key, number) = *self.beginnings.get(at)?;
            if its_key != key {
                return None;
            }
            let (first, after) = self.numbers_of(number as usize);
            let has_all = after.wrapping_sub(first) as usize == ring.len();
            if has_all && is_same(rings.get(number as usize), ring) {
                return Some(first);
            }
        }
        None
    }

    /// The number of an edge between two positions, whichever way it goes, or `NO_EDGE` where none
    /// is found. It is looked for beside the edge `before`, and else where rings begin: so along a
    /// ring that begins where an old one does each edge is found, whichever way it goes round.
    #[inline]
    pub(crate) fn number_of(
        &self,
        rings: &[Vec<Point>],
        from: Point,
        to: Point,
        before: u32,
    ) -> u32 {
        let next = before.wrapping_add(1);
        if self.is_between(rings, next, from, to) {
            return next;
        }
        self.number_elsewhere(rings, from, to, before)
    }

    /// The same, where it isn't the number after that one.
    fn number_elsewhere(&self, rings: &[Vec<Point>], from: Point, to: Point, before: u32) -> u32 {
        let found = self.number_beside(rings, from, to, before);
        if found != NO_EDGE {
            return found;
        }
        self.number_at_beginning(rings, from, to)
    }

    /// The number of an edge between two positions that comes after another one along its ring, or
    /// before it.
    fn number_beside(&self, rings: &[Vec<Point>], from: Point, to: Point, before: u32) -> u32 {
        let Some((ring, _)) = self.place(before) else {
            return NO_EDGE;
        };
        let (first, after) = self.numbers_of(ring);
        let next = before.wrapping_add(1);
        let next = if next == after { first } else { next };
        let previous = if before == first { after } else { before };
        let previous = previous.wrapping_sub(1);
        self.between_of(rings, next, previous, from, to)
    }

    /// The one of two edges that is between two positions, or `NO_EDGE` where neither is.
    fn between_of(
        &self,
        rings: &[Vec<Point>],
        one: u32,
        other: u32,
        from: Point,
        to: Point,
    ) -> u32 {
        if self.is_between(rings, one, from, to) {
            return one;
        }
        if self.is_between(rings, other, from, to) {
            return other;
        }
        NO_EDGE
    }

    /// The number of an edge between two positions that is the first or the last one of a ring which
    /// begins at one of them.
    fn number_at_beginning(&self, rings: &[Vec<Point>], from: Point, to: Point) -> u32 {
        let found = self.number_by_key(rings, sweep_key(from), from, to);
        if found != NO_EDGE {
            return found;
        }
        self.number_by_key(rings, sweep_key(to), from, to)
    }

    /// The same, of a ring that begins at the position of a key.
    fn number_by_key(&self, rings: &[Vec<Point>], key: i64, from: Point, to: Point) -> u32 {
        let begin = self.first_beginning(key);
        for at in begin..begin.saturating_add(FEW_RINGS) {
            let Some((its_key, ring)) = self.beginnings.get(at).copied() else {
                return NO_EDGE;
            };
            if its_key != key {
                return NO_EDGE;
            }
            let found = self.number_at_ends(rings, ring as usize, from, to);
            if found != NO_EDGE {
                return found;
            }
        }
        NO_EDGE
    }

    /// The place of the first beginning of a ring that has no lesser key.
    fn first_beginning(&self, key: i64) -> usize {
        self.beginnings.partition_point(|pair| pair.0 < key)
    }

    /// The number of the first or the last edge of a ring, if it is between two positions.
    fn number_at_ends(&self, rings: &[Vec<Point>], ring: usize, from: Point, to: Point) -> u32 {
        let (first, after) = self.numbers_of(ring);
        self.between_of(rings, first, after.wrapping_sub(1), from, to)
    }

    /// The number of the first edge of a ring, and that after its last one.
    fn numbers_of(&self, ring: usize) -> (u32, u32) {
        let first = self.firsts.get(ring).copied();
        let after = self.firsts.get(ring.wrapping_add(1)).copied();
        (first.unwrap_or(NO_EDGE), after.unwrap_or(NO_EDGE))
    }

    /// Whether an edge is between two positions.
    #[inline]
    fn is_between(&self, rings: &[Vec<Point>], number: u32, from: Point, to: Point) -> bool {
        let Some((ring, vertex)) = self.place(number) else {
            return false;
        };
        let Some(vertices) = rings.get(ring) else {
            return false;
        };
        if vertex >= vertices.len() {
            return false;
        }
        let edge = edge_at(vertices, vertex);
        (edge.a == from && edge.b == to) || (edge.a == to && edge.b == from)
    }
}

/// Whether a ring, if it is there, has these vertices.
fn is_same(ring: Option<&Vec<Point>>, vertices: &[Point]) -> bool {
    match ring {
        Some(ring) => ring.as_slice() == vertices,
        None => false,
    }
}

/// How many vertices rings have together.
pub(crate) fn count_of(rings: &[Vec<Point>]) -> usize {
    let mut count = 0usize;
    for ring in rings {
        count = count.saturating_add(ring.len());
    }
    count
}
