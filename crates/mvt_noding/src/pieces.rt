//! The segments while they are split.
ghost use Rattle.std.specs.Prelude.{◌<ℤ◌, All, IfOk, IsTrue};
ghost use Rattle.mvt_plane.specs.Geometry.Measure.{key_of};

use crate::end_order::EndOrder;
use crate::packing::Packing;
use crate::stop::Stop;
use mvt_plane::{Point, sweep_key};
use mvt_segments::{Keyed, Segment, Winding, merge_into, sorted_by_ends};
use std::alloc::{AllocError, Global};
use std::mem;

/// The segments while they are split. No two members of a list that have a gain have the same ends.
/// All lists are sorted by ends but that of the first round, which keeps the order in which segments
/// were given: mostly that along rings, in which neighbours lie close together.
#[derive(Drop)]
pub(crate) struct Pieces {
    /// Those whose meetings are still to be found. Some of the first round may be without effect.
    fresh: Vec<Segment>,
    /// The others, no two of which meet but in an end of both, or with one of `first`.
    settled: Vec<Segment>,
    /// What was left of the first round, no two of which meet but in an end of both: those that have
    /// a gain. The others were split, or are without effect, and stay for the sake of the numbers.
    first: Vec<Segment>,
    /// The order of the first round's by their ends.
    order: EndOrder,
    /// The index of `first`, once there is one.
    index: Option<Packing>,
}

impl Pieces {
    /// All of these, each of which goes from the end of lesser key to the other. All are fresh.
    pub(crate) fn of(alloc: Global, mut segments: Vec<Segment>) -> Result<Pieces, AllocError> {
        let order = EndOrder::merging(alloc, &mut segments)?;
        Ok(Pieces {
            fresh: segments,
            settled: Vec::new(alloc),
            first: Vec::new(alloc),
            order,
            index: None,
        })
    }

    /// Those whose meetings are still to be found. They are numbered from 0 on.
    pub(crate) fn fresh(&self) -> &[Segment] {
        &self.fresh
    }

    /// Those of the first round, some of which are without effect. Their numbers follow.
    pub(crate) fn first(&self) -> &[Segment] {
        &self.first
    }

    /// The index of these, where there are any.
    pub(crate) fn index(&self) -> Option<&Packing> {
        self.index.as_ref()
    }

    /// The others. Their numbers follow.
    pub(crate) fn settled(&self) -> &[Segment] {
        &self.settled
    }

    /// Keeps the index of the fresh ones, if they are those of the first round.
    pub(crate) fn keep_index(&mut self, index: Packing) {
        if self.index.is_none() {
            self.index = Some(index);
        }
    }

    /// The list that has the one of this number, and its place there.
    #[inline]
    fn place(&self, number: u32) -> (List, usize) {
        let number = number as usize;
        let Some(after_fresh) = number.checked_sub(self.fresh.len()) else {
            return (List::Fresh, number);
        };
        match after_fresh.checked_sub(self.first.len()) {
            None => (List::First, after_fresh),
            Some(place) => (List::Settled, place),
        }
    }

    /// Takes the gain of the one of this number, and returns it as it was.
    pub(crate) fn take_gain(&mut self, number: u32) -> Option<Segment> {
        let (list, place) = self.place(number);
        match list {
            List::Fresh => take_gain(&mut self.fresh, place),
            List::First => take_gain(&mut self.first, place),
            List::Settled => take_gain(&mut self.settled, place),
        }
    }

    /// Settles all that have a gain left, and adds these parts, which are fresh but where they are
    /// equal to another.
    pub(crate) fn go_on_with(
        &mut self,
        alloc: Global,
        parts: Vec<Segment>,
    ) -> Result<(), AllocError> {
        let mut parts = merged(alloc, parts)?;
        self.settle()?;
        parts.retain(|part| !self.order.absorbs(&mut self.first, part));
        parts.retain(|part| !absorbs(&mut self.settled, part));
        leave_those_of_gain(&mut self.settled);
        self.fresh = parts;
        Ok(())
    }

    /// Settles all. After the first round these are the first ones, and keep their numbers.
    fn settle(&mut self) -> Result<(), AllocError> {
        if self.first.is_empty() {
            mem::swap(&mut self.first, &mut self.fresh);
            return Ok(());
        }
        leave_those_of_gain(&mut self.fresh);
        leave_those_of_gain(&mut self.settled);
        merge_into(&mut self.settled, &self.fresh)?;
        self.fresh.clear();
        Ok(())
    }

    /// All of them, sorted.
    pub(crate) fn into_segments(mut self, alloc: Global) -> Result<Vec<Segment>, AllocError> {
        self.settle()?;
        self.index = None;
        let mut sorted = self.order.in_order(alloc, &self.first, self.settled.len())?;
        merge_into(&mut sorted, &self.settled)?;
        Ok(sorted)
    }
}

/// Where a piece is.
#[derive(Clone, Copy)]
enum List {
    Fresh,
    First,
    Settled,
}

/// The part of a segment from one position to another, which begins at the one of lesser key.
#[inline]
pub(crate) fn between(segment: &Segment, from: Point, to: Point) -> Segment {
    let (a, b, gain) = if sweep_key(from) <= sweep_key(to) {
        (from, to, segment.gain)
    } else {
        (to, from, segment.gain.negated())
    };
    Segment {
        a,
        b,
        gain,
        source: segment.source,
        witness: segment.witness,
    }
}

/// Leaves only those of segments that have a gain.
fn leave_those_of_gain(segments: &mut Vec<Segment>) {
    segments.retain(|segment| segment.has_gain());
}

/// Takes the gain of the segment at this place, and returns it as it was.
fn take_gain(segments: &mut [Segment], place: usize) -> Option<Segment> {
    let segment = segments.get_mut(place)?;
    let was = *segment;
    segment.gain = Winding::none();
    Some(was)
}

/// Segments sorted by their ends, with the gains of those that are equal added up, and without those
/// of no gain, or of no length.
fn merged(alloc: Global, segments: Vec<Segment>) -> Result<Vec<Segment>, AllocError> {
    let mut sorted = sorted_by_ends(alloc, segments)?;
    let count = merge_equal(&mut sorted);
    sorted.truncate(count);
    Ok(sorted)
}

/// Brings what is left of sorted segments to their front, where equal ones are merged, and those of no
/// gain or no length left out. Returns how many they are.
fn merge_equal(segments: &mut [Segment]) -> usize {
    let mut count = 0usize;
    for place in 0..segments.len() {
        let segment = segments[place];
        let last = count.wrapping_sub(1);
        if let Some(before) = segments.get_mut(last) {
            if before.absorb(&segment) {
                continue;
            }
            if !has_effect(before) {
                count = last;
            }
        }
        if let Some(there) = segments.get_mut(count) {
            *there = segment;
        }
        count = count.wrapping_add(1);
    }
    let last = count.wrapping_sub(1);
    match segments.get(last) {
        Some(segment) if !has_effect(segment) => last,
        _ => count,
    }
}

/// Whether a segment has a gain and a length.
#[inline]
fn has_effect(segment: &Segment) -> bool {
    segment.has_gain() && segment.a != segment.b
}

/// Adds the gain of a segment to the one of the same ends that isn't without effect, if there is one,
/// and returns whether there is. They are sorted by ends.
fn absorbs(segments: &mut Vec<Segment>, part: &Segment) -> bool {
    let Ok(place) = segments.binary_search_by_key(&part.keys(), |segment: &Segment| segment.keys())
    else {
        return false;
    };
    match segments.get_mut(place) {
        Some(segment) if segment.has_gain() => segment.absorb(part),
        _ => false,
    }
}

/// Segments that go from the end of lesser key to the other. (Those of pieces do.)
pub(crate) fn directed(segments: Vec<Segment>) -> Result<Vec<Segment>, Stop>
    ensures { IfOk result (λ segments.
        All (λ segment. key_of segment.a <ℤ key_of segment.b) segments.items) }
{
    if are_directed(&segments) {
        Ok(segments)
    } else {
        Err(Stop::Work)
    }
}

/// Whether each segment goes from the end of lesser key to the other.
fn are_directed(segments: &[Segment]) -> bool
    ensures { IsTrue result
        → All (λ segment. key_of segment.a <ℤ key_of segment.b) segments.now }
{
    segments
        .iter()
        .all(|segment| sweep_key(segment.a) < sweep_key(segment.b))
}
