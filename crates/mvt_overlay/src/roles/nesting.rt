//! Which ring is directly around each of several.

use crate::faces::stop::{Stop, numbered, put};
use crate::faces::sweep::sweep;
use crate::lists::mark;
use crate::roles::around::RingsAround;
use crate::roles::tested::parents_by_tests;
use mvt_plane::{Point, sweep_key, twice_area};
use mvt_segments::{Segment, Winding, Work, ends_of, sorted_by_ends};
use std::alloc::{AllocError, Global};

/// The number of no ring.
pub(super) const NO_RING: u32 = u32::MAX;

/// Which ring is directly around each ring.
#[derive(Drop)]
pub(super) struct Nesting {
    /// By the number of each ring, that of the least ring around it, or `NO_RING`.
    parents: Vec<u32>,
    /// The numbers of all rings that have an area, the least first: each before its parent.
    order: Vec<u32>,
}

impl Nesting {
    /// The nesting of rings. Those of area 0 are around nothing, and have nothing around them. Where
    /// rings meet, what is around a ring is what is around most of its edges or positions.
    pub(super) fn of(alloc: Global, rings: &[&[Point]], work: &mut Work) -> Result<Nesting, Stop> {
        let order = by_size(alloc, rings)?;
        let parents = match parents_by_sweep(alloc, rings, &order, work) {
            Err(Stop::GaveUp) => parents_by_tests(alloc, rings, &order, work)?,
            answer => answer?,
        };
        Ok(Nesting { parents, order })
    }

    /// The ring directly around this one, if there is one.
    pub(super) fn parent(&self, ring: usize) -> Option<usize> {
        let parent = *self.parents.get(ring)?;
        if parent == NO_RING {
            None
        } else {
            Some(parent as usize)
        }
    }

    /// By the number of each ring, whether it is in an odd number of others.
    pub(super) fn are_odd(&self, alloc: Global) -> Result<Vec<bool>, AllocError> {
        let mut are_odd = vec![in alloc; false; self.parents.len()]?;
        for ring in self.order.iter().rev() {
            if self.is_odd(*ring, &are_odd) {
                mark(&mut are_odd, *ring as usize);
            }
        }
        Ok(are_odd)
    }

    /// Whether a ring is in an odd number of others, where that is known of the one around it.
    fn is_odd(&self, ring: u32, are_odd: &[bool]) -> bool {
        match self.parent(ring as usize) {
            Some(parent) => !are_odd.get(parent).copied().unwrap_or(true),
            None => false,
        }
    }

    /// Of each ring but the first ones, so many, the nearest of these around it, if there is one.
    pub(super) fn nearest_of_first(
        &self,
        alloc: Global,
        first: usize,
    ) -> Result<Vec<Option<u32>>, AllocError> {
        let mut nearest = vec![in alloc; None; self.parents.len()]?;
        for ring in self.order.iter().rev() {
            let found = self.nearest(*ring, first, &nearest);
            if let Some(place) = nearest.get_mut(*ring as usize) {
                *place = found;
            }
        }
        let later = nearest.get(first..).unwrap_or_default();
        let mut of_later = Vec::with_capacity(alloc, later.len())?;
        of_later.extend_from_slice(later)?;
        Ok(of_later)
    }

    /// That of one ring, where it is known of the one around it.
    fn nearest(&self, ring: u32, first: usize, nearest: &[Option<u32>]) -> Option<u32> {
        let parent = self.parent(ring as usize)?;
        if parent < first {
            u32::try_from(parent).ok()
        } else {
            *nearest.get(parent)?
        }
    }
}

/// The numbers of the rings that have an area, the least first.
fn by_size(alloc: Global, rings: &[&[Point]]) -> Result<Vec<u32>, Stop> {
    let mut sizes = Vec::new(alloc);
    for (number, ring) in rings.iter().enumerate() {
        let size = twice_area(ring).unsigned_abs();
        if size > 0 {
            sizes.push((size, numbered(number)?))?;
        }
    }
    sizes.sort_unstable_by_key(|pair| pair.0);
    numbers_of(alloc, &sizes)
}

/// The numbers of pairs.
fn numbers_of(alloc: Global, pairs: &[(u128, u32)]) -> Result<Vec<u32>, Stop> {
    let mut numbers = Vec::with_capacity(alloc, pairs.len())?;
    for (_, number) in pairs {
        numbers.push(*number)?;
    }
    Ok(numbers)
}

/// By the number of each ring, that of the innermost one around it that comes after it in this
/// order, or `NO_RING`.
fn parents_by_sweep(
    alloc: Global,
    rings: &[&[Point]],
    order: &[u32],
    work: &mut Work,
) -> Result<Vec<u32>, Stop> {
    let segments = segments_of(alloc, rings, order)?;
    let mut around = RingsAround::new(alloc, &segments, rings.len())?;
    let ends = ends_of(alloc, &segments)?;
    sweep(alloc, &segments, &ends, &mut around, work)?;
    innermost_rings(alloc, &around, order, rings.len(), work)
}

/// The same, once it is noted what is around the edges of so many rings.
fn innermost_rings(
    alloc: Global,
    around: &RingsAround,
    order: &[u32],
    rings: usize,
    work: &mut Work,
) -> Result<Vec<u32>, Stop> {
    let places = places_in(alloc, order, rings)?;
    let mut parents = vec![in alloc; NO_RING; rings]?;
    for (at, ring) in order.iter().enumerate() {
        if let Some(parent) = around.innermost_after(*ring, &places, at, work)? {
            put(&mut parents, *ring, parent)?;
        }
    }
    Ok(parents)
}

/// By the number of each ring, its place in an order, or 0.
fn places_in(alloc: Global, order: &[u32], rings: usize) -> Result<Vec<usize>, Stop> {
    let mut places = vec![in alloc; 0; rings]?;
    for (at, ring) in order.iter().enumerate() {
        let place = places.get_mut(*ring as usize);
        *place.ok_or(Stop::GaveUp)? = at;
    }
    Ok(places)
}

/// The edges of these rings in the order of their first ends.
fn segments_of(alloc: Global, rings: &[&[Point]], order: &[u32]) -> Result<Vec<Segment>, Stop> {
    let mut segments = Vec::new(alloc);
    for number in order {
        let ring = rings.get(*number as usize).ok_or(Stop::GaveUp)?;
        list_edges(ring, *number, &mut segments)?;
    }
    Ok(sorted_by_ends(alloc, segments)?)
}

/// Lists the edges of a ring.
fn list_edges(ring: &[Point], number: u32, segments: &mut Vec<Segment>) -> Result<(), Stop> {
    let Some(last) = ring.last() else {
        return Ok(());
    };
    let mut from = *last;
    for to in ring {
        let is_forward = sweep_key(from) < sweep_key(*to);
        segments.push(Segment {
            a: if is_forward { from } else { *to },
            b: if is_forward { *to } else { from },
            gain: Winding::none(),
            source: number,
            witness: 0,
        })?;
        from = *to;
    }
    Ok(())
}
