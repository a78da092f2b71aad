//! Which rings are around the places just above and just below each segment of rings.

use crate::faces::stop::{Stop, numbered, put, spend};
use crate::faces::sweep::Notes;
use mvt_segments::{Segment, Work};
use std::alloc::{AllocError, Global};

/// Around this place there is no ring.
const NOWHERE: u32 = u32::MAX;

/// A place that rings are around.
#[derive(Clone, Copy)]
struct Place {
    /// The innermost of these rings.
    ring: u32,
    /// The place that the others are around.
    outer: u32,
}

/// What most segments of a ring have around them: a place that was counted up by each segment that
/// has it, and counted down by each other one. (More than half of them can't be counted down.)
#[derive(Clone, Copy)]
struct Vote {
    place: u32,
    lead: u32,
}

impl Vote {
    /// Counts a segment that has a place.
    #[inline]
    fn count(&mut self, place: u32) {
        if self.place == place {
            self.lead = self.lead.saturating_add(1);
        } else if self.lead == 0 {
            self.place = place;
            self.lead = 1;
        } else {
            self.lead -= 1;
        }
    }
}

/// What is noted of the rings around segments: going up over a segment of a ring leads into it, or
/// out of it.
#[derive(Drop)]
pub(super) struct RingsAround<'a> {
    segments: &'a [Segment],
    /// By the number of each segment, the place just above it.
    above: Vec<u32>,
    places: Vec<Place>,
    /// By the number of each ring, the last place made of which it is the innermost one.
    last_place: Vec<u32>,
    /// By the number of each ring, what is around it.
    votes: Vec<Vote>,
    /// The rings that were passed on the way from a place to the outside.
    passed: Vec<u32>,
}

impl<'a> RingsAround<'a> {
    /// With nothing noted, of segments that come of so many rings. The only error is that memory was
    /// refused.
    pub(super) fn new(
        alloc: Global,
        segments: &'a [Segment],
        rings: usize,
    ) -> Result<RingsAround<'a>, AllocError> {
        let none = Vote {
            place: NOWHERE,
            lead: 0,
        };
        Ok(RingsAround {
            segments,
            above: vec![in alloc; NOWHERE; segments.len()]?,
            places: Vec::new(alloc),
            last_place: vec![in alloc; NOWHERE; rings]?,
            votes: vec![in alloc; none; rings]?,
            passed: Vec::new(alloc),
        })
    }

    /// The innermost of the rings around a ring whose places in an order are after this one, if there
    /// is one.
    pub(super) fn innermost_after(
        &self,
        ring: u32,
        places: &[usize],
        after: usize,
        work: &mut Work,
    ) -> Result<Option<u32>, Stop> {
        let vote = self.votes.get(ring as usize).ok_or(Stop::GaveUp)?;
        let mut at = vote.place;
        for _ in 0..self.places.len().saturating_add(1) {
            let Some(place) = self.place(at) else {
                return Ok(None);
            };
            spend(work, 1)?;
            if is_after(places, place.ring, after) {
                return Ok(Some(place.ring));
            }
            at = place.outer;
        }
        Err(Stop::GaveUp)
    }

    /// The place of this number; none where no ring is around.
    #[inline]
    fn place(&self, number: u32) -> Option<Place> {
        self.places.get(number as usize).copied()
    }

    /// A segment of a ring has these rings around it, or is on the ring's own other side.
    fn vote(&mut self, ring: u32, under: u32) -> Result<(), Stop> {
        let place = match self.place(under) {
            Some(inner) if inner.ring == ring => inner.outer,
            _ => under,
        };
        match self.votes.get_mut(ring as usize) {
            Some(vote) => {
                vote.count(place);
                Ok(())
            }
            None => Err(Stop::GaveUp),
        }
    }

    /// The place on the other side of a segment of a ring.
    fn across(&mut self, under: u32, ring: u32, work: &mut Work) -> Result<u32, Stop> {
        self.passed.clear();
        let mut at = under;
        for _ in 0..self.places.len().saturating_add(1) {
            let Some(place) = self.place(at) else {
                return self.inside(ring, under);
            };
            if place.ring == ring {
                return self.inside_passed(place.outer);
            }
            spend(work, 1)?;
            self.passed.push(place.ring)?;
            at = place.outer;
        }
        Err(Stop::GaveUp)
    }

    /// The place that is within all rings that were passed, and has these others around it.
    fn inside_passed(&mut self, outer: u32) -> Result<u32, Stop> {
        let mut at = outer;
        for _ in 0..self.passed.len() {
            let ring = self.passed.pop().ok_or(Stop::GaveUp)?;
            at = self.inside(ring, at)?;
        }
        Ok(at)
    }

    /// The place that is also within this ring.
    fn inside(&mut self, ring: u32, outer: u32) -> Result<u32, Stop> {
        let last = *self.last_place.get(ring as usize).ok_or(Stop::GaveUp)?;
        if let Some(place) = self.place(last) {
            if place.outer == outer {
                return Ok(last);
            }
        }
        let number = numbered(self.places.len())?;
        self.places.push(Place { ring, outer })?;
        put(&mut self.last_place, ring, number)?;
        Ok(number)
    }
}

/// Whether the place of a ring in an order is after another one.
#[inline]
fn is_after(places: &[usize], ring: u32, after: usize) -> bool {
    match places.get(ring as usize) {
        Some(place) => *place > after,
        None => false,
    }
}

impl Notes for RingsAround<'_> {
    fn begin(
        &mut self,
        number: u32,
        below: u32,
        _like: Option<u32>,
        work: &mut Work,
    ) -> Result<(), Stop> {
        let under = self.above.get(below as usize).copied().unwrap_or(NOWHERE);
        let segment = self.segments.get(number as usize).ok_or(Stop::GaveUp)?;
        let ring = segment.source;
        self.vote(ring, under)?;
        let over = self.across(under, ring, work)?;
        put(&mut self.above, number, over)
    }

    fn follow(&mut self, number: u32, below: u32, ended: u32, work: &mut Work) -> Result<(), Stop> {
        self.begin(number, below, Some(ended), work)
    }

    fn go_on(&mut self, _one: u32, _other: u32) -> Result<(), Stop> {
        Ok(())
    }
}
