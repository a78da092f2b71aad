//! Whose holes the rings along a boundary are.
ghost use Rattle.std.specs.Prelude.{◌≤◌};

use crate::boundary::NO_NUMBER;
use crate::boundary::rings::{BoundaryRing, lowest_edge};
use crate::faces::directly_below;
use crate::groups::Groups;
use crate::lists::set;
use mvt_plane::sweep_key;
use mvt_segments::{HalfEdge, Segment, Winding, Work, ends_of, sorted_by_ends};
use std::alloc::{AllocError, Global};

/// Of each ring the number of the exterior of its part: an exterior's own, and of a hole that of
/// the part of its edges, of which `parts` are one. Where that has more than one exterior, it is that
/// of the ring of the edge directly below the hole's vertex of least key. None where the work doesn't suffice,
/// or where a hole has nothing below it. The only error is that memory was refused.
pub(super) fn exteriors_of(
    alloc: Global,
    edges: &[HalfEdge],
    next: &[u32],
    rings: &[BoundaryRing],
    ring_of: &[u32],
    parts: &mut Groups,
    work: &mut Work,
) -> Result<Option<Vec<u32>>, AllocError>
    ensures no_more { work.new ≤ work.old }
{
    let mut exteriors = known_exteriors(alloc, rings)?;
    if !exteriors.contains(&NO_NUMBER) {
        return Ok(Some(exteriors));
    }
    add_those_of_parts(alloc, edges, rings, parts, &mut exteriors)?;
    if !exteriors.contains(&NO_NUMBER) {
        return Ok(Some(exteriors));
    }
    let lowest = lowest_of(alloc, edges, next, rings, &exteriors)?;
    with_those_under(alloc, edges, &lowest, ring_of, exteriors, work)
}

/// These with those of holes, of which the lowest edges are given. None as above.
fn with_those_under(
    alloc: Global,
    edges: &[HalfEdge],
    lowest: &[u32],
    ring_of: &[u32],
    mut exteriors: Vec<u32>,
    work: &mut Work,
) -> Result<Option<Vec<u32>>, AllocError>
    ensures no_more { work.new ≤ work.old }
{
    let Some(under) = rings_under(alloc, edges, lowest, ring_of, work)? else {
        return Ok(None);
    };
    if add_those_of_holes(&under, &mut exteriors, work) {
        Ok(Some(exteriors))
    } else {
        Ok(None)
    }
}

/// Of each ring its own number if it is an exterior, or else `NO_NUMBER`.
fn known_exteriors(alloc: Global, rings: &[BoundaryRing]) -> Result<Vec<u32>, AllocError> {
    let mut exteriors = Vec::with_capacity(alloc, rings.len())?;
    for (number, ring) in rings.iter().enumerate() {
        exteriors.push(if ring.area > 0 {
            u32::try_from(number).unwrap_or(NO_NUMBER)
        } else {
            NO_NUMBER
        })?;
    }
    Ok(exteriors)
}

/// Adds the exteriors of those parts of holes that have one exterior: the parts of edges that are
/// grouped. (A part may have fallen apart since, where a corner was cut.)
fn add_those_of_parts(
    alloc: Global,
    edges: &[HalfEdge],
    rings: &[BoundaryRing],
    parts: &mut Groups,
    exteriors: &mut [u32],
) -> Result<(), AllocError> {
    let of_parts = exteriors_of_parts(alloc, edges, rings, parts, exteriors)?;
    for (ring, exterior) in rings.iter().zip(exteriors.iter_mut()) {
        if *exterior == NO_NUMBER {
            *exterior = only_exterior(&of_parts, part_of(edges, ring, parts));
        }
    }
    Ok(())
}

/// Of each part its exterior, as far as those of rings are known.
fn exteriors_of_parts(
    alloc: Global,
    edges: &[HalfEdge],
    rings: &[BoundaryRing],
    parts: &mut Groups,
    exteriors: &[u32],
) -> Result<Vec<PartExterior>, AllocError> {
    let mut of_parts = vec![in alloc; PartExterior::None; parts.count()]?;
    for (ring, exterior) in rings.iter().zip(exteriors) {
        if *exterior != NO_NUMBER {
            note_exterior(&mut of_parts, part_of(edges, ring, parts), *exterior);
        }
    }
    Ok(of_parts)
}

/// Notes that a part has this exterior.
fn note_exterior(of_parts: &mut [PartExterior], part: Option<usize>, exterior: u32) {
    let Some(part) = part else {
        return;
    };
    if let Some(of_part) = of_parts.get_mut(part) {
        *of_part = of_part.and(exterior);
    }
}

/// The exterior of a part that has only one, or else `NO_NUMBER`.
fn only_exterior(of_parts: &[PartExterior], part: Option<usize>) -> u32 {
    let Some(part) = part else {
        return NO_NUMBER;
    };
    match of_parts.get(part) {
        Some(PartExterior::One(exterior)) => *exterior,
        _ => NO_NUMBER,
    }
}

/// The exterior of a part, as far as it is known.
#[derive(Clone, Copy)]
enum PartExterior {
    None,
    /// The ring of this number.
    One(u32),
    Several,
}

impl PartExterior {
    /// The same with a further ring.
    fn and(self, ring: u32) -> PartExterior {
        match self {
            PartExterior::None => PartExterior::One(ring),
            PartExterior::One(_) | PartExterior::Several => PartExterior::Several,
        }
    }
}

/// The part of a ring: the least of the grouped ones.
fn part_of(edges: &[HalfEdge], ring: &BoundaryRing, parts: &mut Groups) -> Option<usize> {
    let edge = edges.get(ring.first as usize)?;
    Some(parts.least(edge.part)? as usize)
}

/// Adds the exteriors of the parts of holes. False where the work doesn't suffice, or where a hole
/// has nothing below it.
fn add_those_of_holes(under: &[u32], exteriors: &mut [u32], work: &mut Work) -> bool
    ensures no_more { work.new ≤ work.old }
{
    for number in 0..exteriors.len() {
        let Some(exterior) = exterior_of(under, exteriors, number, work) else {
            return false;
        };
        set(exteriors, number, exterior);
    }
    true
}

/// The exterior of the part of a ring: the first that is known of those under it.
fn exterior_of(under: &[u32], exteriors: &[u32], number: usize, work: &mut Work) -> Option<u32>
    ensures no_more { work.new ≤ work.old }
{
    let mut at = number;
    for _ in 0..under.len() {
        let exterior = *exteriors.get(at)?;
        if exterior != NO_NUMBER {
            return Some(exterior);
        }
        if !work.spend(1) {
            return None;
        }
        at = *under.get(at)? as usize;
    }
    None
}

/// Of each ring whose exterior isn't known the lowest of its edges at its vertex of least key, of the
/// others `NO_NUMBER`.
fn lowest_of(
    alloc: Global,
    edges: &[HalfEdge],
    next: &[u32],
    rings: &[BoundaryRing],
    exteriors: &[u32],
) -> Result<Vec<u32>, AllocError> {
    let mut lowest = Vec::with_capacity(alloc, rings.len())?;
    for number in 0..rings.len() {
        lowest.push(if exteriors.get(number) == Some(&NO_NUMBER) {
            lowest_edge(edges, next, &rings[number])
        } else {
            NO_NUMBER
        })?;
    }
    Ok(lowest)
}

/// Of each ring whose lowest edge at its vertex of least key is given the number of the ring of the
/// edge directly below it.
fn rings_under(
    alloc: Global,
    edges: &[HalfEdge],
    lowest: &[u32],
    ring_of: &[u32],
    work: &mut Work,
) -> Result<Option<Vec<u32>>, AllocError>
    ensures no_more { work.new ≤ work.old }
{
    let segments = segments_of(alloc, edges)?;
    let ends = ends_of(alloc, &segments)?;
    let Some(below) = directly_below(alloc, &segments, &ends, work)? else {
        return Ok(None);
    };
    let mut ring_under_edge = vec![in alloc; NO_NUMBER; edges.len()]?;
    for (segment, under) in segments.iter().zip(&below) {
        let ring = ring_of_segment(&segments, ring_of, *under).unwrap_or(NO_NUMBER);
        set(&mut ring_under_edge, segment.witness as usize, ring);
    }
    Ok(Some(those_at(alloc, &ring_under_edge, lowest)?))
}

/// The numbers at these places, or `NO_NUMBER`.
fn those_at(alloc: Global, numbers: &[u32], places: &[u32]) -> Result<Vec<u32>, AllocError> {
    let mut found = Vec::with_capacity(alloc, places.len())?;
    for place in places {
        let number = numbers.get(*place as usize).copied();
        found.push(number.unwrap_or(NO_NUMBER))?;
    }
    Ok(found)
}

/// The ring of the edge that the segment of this number is.
fn ring_of_segment(segments: &[Segment], ring_of: &[u32], number: u32) -> Option<u32> {
    let segment = segments.get(number as usize)?;
    ring_of.get(segment.witness as usize).copied()
}

/// The edges as segments, in the order of their ends. The `witness` of each is its edge's number.
fn segments_of(alloc: Global, edges: &[HalfEdge]) -> Result<Vec<Segment>, AllocError> {
    let mut segments = Vec::with_capacity(alloc, edges.len())?;
    let mut number = 0u32;
    for edge in edges {
        segments.push(segment_of(edge, number))?;
        number = number.wrapping_add(1);
    }
    sorted_by_ends(alloc, segments)
}

/// The edge of a number as a segment, which has what is filled above it or below it.
fn segment_of(edge: &HalfEdge, number: u32) -> Segment {
    let (a, b, exterior) = if sweep_key(edge.from) < sweep_key(edge.to) {
        (edge.from, edge.to, 1)
    } else {
        (edge.to, edge.from, -1)
    };
    Segment {
        a,
        b,
        gain: Winding { exterior, holes: 0 },
        source: edge.source,
        witness: number,
    }
}
