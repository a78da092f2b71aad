//! The edges of polygons as segments.

use crate::mending::drafts::Drafts;
use crate::mending::old::Old;
use crate::near::edge_at;
use crate::near::edges::{NO_EDGE, count_of};
use mvt_plane::{Edge, Point, sweep_key, twice_area};
use mvt_segments::{HalfEdge, Segment, Winding, short};
use std::alloc::{AllocError, Global};

/// What the winding gains from the right to the left of an edge with something filled on its left.
const FILLED_ON_THE_LEFT: Winding = Winding {
    exterior: 1,
    holes: 0,
};

/// The segments of one polygon: its exterior's edges, and those of its holes, each of which is
/// counted as if it went round the other way where its area is negative. The `source` of each is
/// the number of its ring.
pub(super) fn segments_of_polygon(
    alloc: Global,
    polygon: &[Vec<Point>],
    old: Old,
) -> Result<Vec<Segment>, AllocError> {
    let mut segments = Vec::with_capacity(alloc, count_of(polygon))?;
    for (number, ring) in polygon.iter().enumerate() {
        let gain = gain_of_ring(number == 0, ring);
        add_ring(&mut segments, ring, gain, short(number), old)?;
    }
    Ok(segments)
}

/// What the winding gains across an edge of a ring, from its right to its left.
fn gain_of_ring(is_exterior: bool, ring: &[Point]) -> Winding {
    if is_exterior {
        FILLED_ON_THE_LEFT
    } else if twice_area(ring) < 0 {
        Winding {
            exterior: 0,
            holes: -1,
        }
    } else {
        Winding {
            exterior: 0,
            holes: 1,
        }
    }
}

/// The segments of polygons that keep all rules by themselves, whose rings follow one another. The
/// `source` of each is the number of its polygon.
pub(super) fn segments_of_right(
    alloc: Global,
    rings: &[Vec<Point>],
    old: Old,
) -> Result<Vec<Segment>, AllocError> {
    let mut segments = Vec::with_capacity(alloc, count_of(rings))?;
    let mut exteriors = 0u32;
    for ring in rings {
        if twice_area(ring) > 0 {
            exteriors = exteriors.saturating_add(1);
        }
        add_ring(&mut segments, ring, FILLED_ON_THE_LEFT, exteriors, old)?;
    }
    Ok(segments)
}

/// The segments around what drafts fill: the edges of those that are right, and of each other one
/// those that were found. The `source` of each is the number of its draft.
pub(super) fn segments_of_drafts(
    alloc: Global,
    drafts: &Drafts,
    filled: &[Vec<HalfEdge>],
    old: Old,
) -> Result<Vec<Segment>, AllocError> {
    let mut segments = Vec::with_capacity(alloc, count_of_drafts(drafts, filled))?;
    for (number, polygon) in drafts.polygons.iter().enumerate() {
        if drafts.is_right(number) {
            add_rings(&mut segments, polygon, short(number), old)?;
        } else if let Some(edges) = filled.get(number) {
            add_edges(&mut segments, edges)?;
        }
    }
    Ok(segments)
}

/// How many segments there are around what drafts fill.
fn count_of_drafts(drafts: &Drafts, filled: &[Vec<HalfEdge>]) -> usize {
    let mut count = 0usize;
    for (number, polygon) in drafts.polygons.iter().enumerate() {
        let its = if drafts.is_right(number) {
            count_of(polygon)
        } else if let Some(edges) = filled.get(number) {
            edges.len()
        } else {
            0
        };
        count = count.saturating_add(its);
    }
    count
}

/// Adds the edges of the rings of a polygon that keeps all rules.
fn add_rings(
    segments: &mut Vec<Segment>,
    rings: &[Vec<Point>],
    source: u32,
    old: Old,
) -> Result<(), AllocError> {
    for ring in rings {
        add_ring(segments, ring, FILLED_ON_THE_LEFT, source, old)?;
    }
    Ok(())
}

/// Adds edges whose left side is filled.
fn add_edges(segments: &mut Vec<Segment>, edges: &[HalfEdge]) -> Result<(), AllocError> {
    for edge in edges {
        let HalfEdge {
            from,
            to,
            source,
            witness,
            ..
        } = *edge;
        if let Some(segment) = segment_along(from, to, FILLED_ON_THE_LEFT, source, witness) {
            segments.push(segment)?;
        }
    }
    Ok(())
}

/// Adds the edges of a ring, with the old edges that they are.
fn add_ring(
    segments: &mut Vec<Segment>,
    ring: &[Point],
    gain: Winding,
    source: u32,
    old: Old,
) -> Result<(), AllocError> {
    if let Some(first) = old.edges.first_of_same(old.rings, ring) {
        return add_given(segments, ring, gain, source, first);
    }
    let mut witness = NO_EDGE;
    for vertex in 0..ring.len() {
        let Edge { a, b } = edge_at(ring, vertex);
        witness = old.edges.number_of(old.rings, a, b, witness);
        if let Some(segment) = segment_along(a, b, gain, source, witness) {
            segments.push(segment)?;
        }
    }
    Ok(())
}

/// The same of a ring that was given, of which the first edge has this number, and the others follow.
fn add_given(
    segments: &mut Vec<Segment>,
    ring: &[Point],
    gain: Winding,
    source: u32,
    first: u32,
) -> Result<(), AllocError> {
    let mut witness = first;
    for vertex in 0..ring.len() {
        let Edge { a, b } = edge_at(ring, vertex);
        if let Some(segment) = segment_along(a, b, gain, source, witness) {
            segments.push(segment)?;
        }
        witness = witness.wrapping_add(1);
    }
    Ok(())
}

/// The segment of an edge that goes from one position to another, across which the winding gains so
/// much from its right to its left. None where it has no length.
#[inline]
fn segment_along(
    from: Point,
    to: Point,
    gain: Winding,
    source: u32,
    witness: u32,
) -> Option<Segment> {
    if from == to {
        return None;
    }
    let (a, b, gain) = if sweep_key(from) < sweep_key(to) {
        (from, to, gain)
    } else {
        (to, from, gain.negated())
    };
    Some(Segment {
        a,
        b,
        gain,
        source,
        witness,
    })
}
