//! What is below each of segments that meet in ends only.
ghost use Rattle.std.specs.Prelude.{◌≤◌};

mod chains;
pub(crate) mod stop;
pub(crate) mod sweep;

use crate::faces::stop::{Stop, answered, put, spend_down};
use crate::faces::sweep::{Notes, sweep};
use crate::groups::Groups;
use mvt_segments::{Segment, Winding, Work};
use std::alloc::{AllocError, Global};

/// The number of no segment.
pub const NO_SEGMENT: u32 = u32::MAX;

/// What is on the sides of a segment that nothing goes round: on both the face outside of all.
const OUTSIDE: Sides = Sides {
    winding: Winding {
        exterior: 0,
        holes: 0,
    },
    below: 0,
    above: 0,
};

/// Of each segment the number of the one directly below it at its first end: of those that begin
/// there too, the next one clockwise, or else the one that passes directly below that position.
/// `NO_SEGMENT` where there is none. What is given, and None, are as of `faces_of`.
pub fn directly_below(
    alloc: Global,
    segments: &[Segment],
    ends: &[u32],
    work: &mut Work,
) -> Result<Option<Vec<u32>>, AllocError>
    ensures no_more { work.new ≤ work.old }
{
    let mut below = Neighbors {
        below: vec![in alloc; NO_SEGMENT; segments.len()]?,
    };
    let mut left = *work;
    let swept = sweep(alloc, segments, ends, &mut below, &mut left);
    spend_down(work, left);
    match answered(swept)? {
        Some(()) => Ok(Some(below.below)),
        None => Ok(None),
    }
}

/// What is on the sides of a segment.
#[derive(Clone, Copy, Debug, PartialEq, Eq)]
pub struct Sides {
    /// The winding just below it.
    pub winding: Winding,
    /// The number of the face just below it.
    pub below: u32,
    /// The number of the face just above it.
    pub above: u32,
}

/// The faces that segments bound, which meet in ends only.
#[derive(Drop)]
pub struct Faces {
    /// By the number of each segment.
    pub sides: Vec<Sides>,
    /// Which of the numbers are those of one face.
    pub groups: Groups,
}

/// The faces that segments bound, and the winding just below each segment. The segments stand in the
/// order of their first ends by key, and meet in ends only; `ends` has their numbers in the order of
/// their second ends. None where the work doesn't suffice, or where it showed that the segments
/// aren't so. The only error is that memory was refused.
pub fn faces_of(
    alloc: Global,
    segments: &[Segment],
    ends: &[u32],
    work: &mut Work,
) -> Result<Option<Faces>, AllocError>
    ensures no_more { work.new ≤ work.old }
{
    let mut around = FacesAround {
        segments,
        faces: Faces {
            sides: vec![in alloc; OUTSIDE; segments.len()]?,
            groups: Groups::new(alloc, 1)?,
        },
    };
    let mut left = *work;
    let swept = sweep(alloc, segments, ends, &mut around, &mut left);
    spend_down(work, left);
    match answered(swept)? {
        Some(()) => Ok(Some(around.faces)),
        None => Ok(None),
    }
}

/// By the number of each segment, the one directly below it.
#[derive(Drop)]
struct Neighbors {
    below: Vec<u32>,
}

impl Notes for Neighbors {
    fn begin(
        &mut self,
        number: u32,
        below: u32,
        _like: Option<u32>,
        _work: &mut Work,
    ) -> Result<(), Stop> {
        put(&mut self.below, number, below)
    }

    fn follow(
        &mut self,
        number: u32,
        below: u32,
        _ended: u32,
        work: &mut Work,
    ) -> Result<(), Stop> {
        self.begin(number, below, None, work)
    }

    fn go_on(&mut self, _one: u32, _other: u32) -> Result<(), Stop> {
        Ok(())
    }
}

/// What is noted of faces.
#[derive(Drop)]
struct FacesAround<'a> {
    segments: &'a [Segment],
    faces: Faces,
}

impl FacesAround<'_> {
    /// The winding and the face just above a segment, or those outside of all where there is none.
    #[inline]
    fn above(&self, number: u32) -> (Winding, u32) {
        match (
            self.segments.get(number as usize),
            self.faces.sides.get(number as usize),
        ) {
            (Some(segment), Some(sides)) => (sides.winding.plus(segment.gain), sides.above),
            _ => (OUTSIDE.winding, OUTSIDE.above),
        }
    }
}

impl FacesAround<'_> {
    /// The face above a segment, or a new one where none is given.
    #[inline]
    fn face_like(&mut self, like: Option<u32>) -> Result<u32, Stop> {
        match like {
            Some(like) => Ok(self.above(like).1),
            None => Ok(self.faces.groups.add()?),
        }
    }

    /// Notes what is on the sides of a segment.
    #[inline]
    fn put(&mut self, number: u32, sides: Sides) -> Result<(), Stop> {
        match self.faces.sides.get_mut(number as usize) {
            Some(place) => {
                *place = sides;
                Ok(())
            }
            None => Err(Stop::GaveUp),
        }
    }
}

impl Notes for FacesAround<'_> {
    fn begin(
        &mut self,
        number: u32,
        below: u32,
        like: Option<u32>,
        _work: &mut Work,
    ) -> Result<(), Stop> {
        let (winding, face) = self.above(below);
        let above = self.face_like(like)?;
        self.put(
            number,
            Sides {
                winding,
                below: face,
                above,
            },
        )
    }

    #[inline]
    fn follow(
        &mut self,
        number: u32,
        _below: u32,
        ended: u32,
        _work: &mut Work,
    ) -> Result<(), Stop> {
        let Some(sides) = self.faces.sides.get(ended as usize).copied() else {
            return Err(Stop::GaveUp);
        };
        self.put(number, sides)
    }

    fn go_on(&mut self, one: u32, other: u32) -> Result<(), Stop> {
        let (_, one) = self.above(one);
        let (_, other) = self.above(other);
        self.faces.groups.join(one, other).ok_or(Stop::GaveUp)
    }
}
