//! Segments that meet in ends only, and what is filled between them.

use mvt_noding::node;
use mvt_overlay::{Faces, faces_of};
use mvt_plane::sweep_key;
use mvt_segments::{HalfEdge, Segment, Tally, Winding, Work, ends_of};
use std::alloc::{AllocError, Global};

/// When a place is filled, by its winding.
#[derive(Clone, Copy)]
pub(super) enum Fill {
    /// Where the exterior goes round it, whichever way, and the holes together don't.
    ExteriorLessHoles,
    /// Where the polygons go round it more often counterclockwise than the other way.
    Polygons,
}

impl Fill {
    /// Whether a place of this winding is filled.
    #[inline]
    fn is_filled(self, winding: Winding) -> bool {
        match self {
            Fill::ExteriorLessHoles => winding.exterior != 0 && winding.holes == 0,
            Fill::Polygons => winding.exterior > 0,
        }
    }
}

/// On which side of a segment something is filled.
#[derive(Clone, Copy)]
enum FilledSide {
    /// Just above it, and not below: its edge rises.
    Above,
    /// Just below it, and not above: its edge falls.
    Below,
    BothOrNone,
}

/// No position has so great a key, and none a greater one than the other.
const AFTER_ALL: i64 = i64::MAX;

const LAST_KEY: i64 = i64::MAX - 1;

/// An edge that falls: one with something filled below it alone.
#[derive(Clone, Copy)]
struct Falling {
    /// Its place in the order of second ends.
    place: usize,
    /// The number of its segment.
    number: usize,
    /// The key of the position where it begins, its second end. `AFTER_ALL` of none.
    key: i64,
}

/// Segments that meet in ends only.
#[derive(Drop)]
pub(super) struct Arranged {
    /// In the order of their ends.
    segments: Vec<Segment>,
    /// Their numbers in the order of the keys of their second ends.
    ends: Vec<u32>,
    /// What is between them.
    faces: Faces,
}

impl Arranged {
    /// The segments, split where they meet. None where the work doesn't suffice. The only error is
    /// that memory was refused.
    pub(super) fn of(
        alloc: Global,
        segments: Vec<Segment>,
        work: &mut Work,
        tally: &mut Tally,
    ) -> Result<Option<Arranged>, AllocError> {
        let Some(segments) = node(alloc, segments, work, tally)? else {
            return Ok(None);
        };
        let ends = ends_of(alloc, &segments)?;
        let Some(faces) = faces_of(alloc, &segments, &ends, work)? else {
            return Ok(None);
        };
        Ok(Some(Arranged {
            segments,
            ends,
            faces,
        }))
    }

    /// Of each ring of a polygon whether it lies outside of the exterior, the first ring,
    /// altogether: whether the exterior goes round neither side of any of its edges, and some edge
    /// of it is left.
    pub(super) fn strays(&self, alloc: Global, rings: usize) -> Result<Vec<bool>, AllocError> {
        let mut strays = vec![in alloc; false; rings]?;
        if rings <= 1 {
            return Ok(strays);
        }
        let mut inside = vec![in alloc; false; rings]?;
        self.mark_rings(&mut strays, &mut inside);
        for (stray, inside) in strays.iter_mut().zip(&inside) {
            *stray = *stray && !*inside;
        }
        if let Some(exterior) = strays.first_mut() {
            *exterior = false;
        }
        Ok(strays)
    }

    /// Marks each ring that has an edge, and each of which the exterior goes round a side of an edge.
    fn mark_rings(&self, there: &mut [bool], inside: &mut [bool]) {
        for (segment, sides) in self.segments.iter().zip(&self.faces.sides) {
            mark(there, segment.source);
            if goes_round(sides.winding, segment.gain) {
                mark(inside, segment.source);
            }
        }
    }

    /// The edges with something filled on just one side, so that it is on their left, in the order of
    /// the keys of their ends. All have this `source`, if one is given, or else that of their segment.
    pub(super) fn boundary(
        &mut self,
        alloc: Global,
        fill: Fill,
        source: Option<u32>,
    ) -> Result<Vec<HalfEdge>, AllocError> {
        let filled = self.filled_sides(alloc, fill)?;
        let mut edges = Vec::with_capacity(alloc, self.segments.len())?;
        let mut falling = self.falling_from(0, &filled);
        // (edges that rise begin at first ends, and others at second ends; at one position these come
        // first)
        for (number, side) in filled.iter().enumerate() {
            let FilledSide::Above = *side else {
                continue;
            };
            let Some(segment) = self.segments.get(number).copied() else {
                break;
            };
            let key = sweep_key(segment.a);
            if falling.key <= key {
                falling = self.add_falling(falling, key, &filled, source, &mut edges)?;
            }
            let part = self.part(number, FilledSide::Above);
            edges.push(half_edge(&segment, true, source, part))?;
        }
        self.add_falling(falling, LAST_KEY, &filled, source, &mut edges)?;
        Ok(edges)
    }

    /// The first edge that falls, from a place in the order of second ends on.
    #[inline]
    fn falling_from(&self, from: usize, filled: &[FilledSide]) -> Falling {
        for place in from..self.ends.len() {
            let number = self.ends[place] as usize;
            let Some(FilledSide::Below) = filled.get(number) else {
                continue;
            };
            if let Some(segment) = self.segments.get(number) {
                let key = sweep_key(segment.b);
                return Falling { place, number, key };
            }
        }
        Falling {
            place: self.ends.len(),
            number: 0,
            key: AFTER_ALL,
        }
    }

    /// Adds the edges from one that falls on that begin at no greater key, and returns the next one.
    fn add_falling(
        &mut self,
        first: Falling,
        key: i64,
        filled: &[FilledSide],
        source: Option<u32>,
        edges: &mut Vec<HalfEdge>,
    ) -> Result<Falling, AllocError> {
        let mut falling = first;
        for _ in first.place..self.ends.len() {
            if falling.key > key {
                break;
            }
            let Some(segment) = self.segments.get(falling.number).copied() else {
                break;
            };
            let part = self.part(falling.number, FilledSide::Below);
            edges.push(half_edge(&segment, false, source, part))?;
            falling = self.falling_from(falling.place.saturating_add(1), filled);
        }
        Ok(falling)
    }

    /// On which side of each segment something is filled. Where both sides are alike, the faces on
    /// them become one, so that faces are the parts of what is filled.
    fn filled_sides(&mut self, alloc: Global, fill: Fill) -> Result<Vec<FilledSide>, AllocError> {
        let mut filled = Vec::with_capacity(alloc, self.segments.len())?;
        for (segment, sides) in self.segments.iter().zip(&self.faces.sides) {
            let below = fill.is_filled(sides.winding);
            let above = fill.is_filled(sides.winding.plus(segment.gain));
            if above == below {
                let _ = self.faces.groups.join(sides.below, sides.above);
                filled.push(FilledSide::BothOrNone)?;
            } else if above {
                filled.push(FilledSide::Above)?;
            } else {
                filled.push(FilledSide::Below)?;
            }
        }
        Ok(filled)
    }

    /// The part of what is filled that is on this side of the segment of a number.
    #[inline]
    fn part(&mut self, number: usize, side: FilledSide) -> u32 {
        let face = match (self.faces.sides.get(number), side) {
            (Some(sides), FilledSide::Above) => sides.above,
            (Some(sides), _) => sides.below,
            (None, _) => 0,
        };
        self.faces.groups.least(face).unwrap_or(face)
    }
}

/// Marks the ring of a number, if it is there.
#[inline]
fn mark(rings: &mut [bool], number: u32) {
    if let Some(mark) = rings.get_mut(number as usize) {
        *mark = true;
    }
}

/// Whether the exterior goes round what is just below a segment, or just above it.
#[inline]
fn goes_round(below: Winding, gain: Winding) -> bool {
    below.exterior != 0 || below.plus(gain).exterior != 0
}

/// A segment as an edge, from the end of lesser key where what is above it is filled.
fn half_edge(segment: &Segment, is_filled_above: bool, source: Option<u32>, part: u32) -> HalfEdge {
    let (from, to) = if is_filled_above {
        (segment.a, segment.b)
    } else {
        (segment.b, segment.a)
    };
    HalfEdge {
        from,
        to,
        source: source.unwrap_or(segment.source),
        witness: segment.witness,
        part,
    }
}
