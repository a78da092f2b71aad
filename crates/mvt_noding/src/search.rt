//! Finds where pieces meet.

ghost use Rattle.std.specs.Prelude.{◌≤◌};

use crate::bounds::Bounds;
use crate::meetings::Meetings;
use crate::packing::{GROUP, Packing};
use crate::pieces::Pieces;
use crate::stop::{Stop, spend};
use mvt_segments::{Segment, Work, short};
use std::alloc::Global;

/// The work of testing two segments, in tests of bounds, which count as 1.
const TEST_WORK: u64 = 4;

/// All meetings of two pieces of which one is fresh at least. More pieces than a `u32` can number are
/// too much work.
pub(crate) fn find_meetings(
    alloc: Global,
    pieces: &mut Pieces,
    work: &mut Work,
) -> Result<Meetings, Stop>
    ensures no_more { work.new ≤ work.old }
{
    // (pieces of one edge are in one line, so runs of them take much room)
    let longest_run = if pieces.index().is_none() { GROUP } else { 1 };
    let packing = Packing::of(alloc, pieces.fresh(), longest_run)?;
    let mut search = Search::new(alloc, pieces, &packing)?;
    for group in 0..packing.group_count() {
        search.within(group, work)?;
        search.after(group, work)?;
    }
    search.with_first(work)?;
    search.with_settled(work)?;
    let meetings = search.meetings;
    pieces.keep_index(packing);
    Ok(meetings)
}

/// An index of pieces.
#[derive(Clone, Copy)]
struct Index<'a> {
    packing: &'a Packing,
    /// The pieces that are in it.
    pieces: &'a [Segment],
    /// The number of the first of them.
    first: u32,
}

/// A piece whose meetings are looked for.
#[derive(Clone, Copy)]
struct Sought<'a> {
    number: u32,
    segment: &'a Segment,
    bounds: Bounds,
}

/// A search for meetings.
#[derive(Drop)]
struct Search<'a> {
    pieces: &'a Pieces,
    /// That of the fresh pieces.
    fresh: Index<'a>,
    /// The number of the first piece of the first round.
    first: u32,
    /// The number of the first of the settled pieces.
    settled: u32,
    /// What was found so far.
    meetings: Meetings,
}

impl<'a> Search<'a> {
    /// One that found nothing so far, with the index of the fresh pieces.
    fn new(alloc: Global, pieces: &'a Pieces, packing: &'a Packing) -> Result<Search<'a>, Stop> {
        let first = pieces.fresh().len();
        let settled = first.saturating_add(pieces.first().len());
        let after = settled.saturating_add(pieces.settled().len());
        if after > u32::MAX as usize {
            return Err(Stop::Work);
        }
        Ok(Search {
            pieces,
            fresh: Index {
                packing,
                pieces: pieces.fresh(),
                first: 0,
            },
            first: short(first),
            settled: short(settled),
            meetings: Meetings::none(alloc),
        })
    }

    /// Finds meetings of a fresh piece with one of the first round. The fewer ones are looked up in
    /// the index of the others.
    fn with_first(&mut self, work: &mut Work) -> Result<(), Stop>
        ensures no_more { work.new ≤ work.old }
    {
        let Some(packing) = self.pieces.index() else {
            return Ok(());
        };
        let (fresh, pieces) = (self.pieces.fresh(), self.pieces.first());
        if pieces.len() < fresh.len() {
            return self.look_up(self.first, pieces, self.fresh, work);
        }
        let index = Index {
            packing,
            pieces,
            first: self.first,
        };
        self.look_up(0, fresh, index, work)
    }

    /// Finds meetings of a settled piece with a fresh one.
    fn with_settled(&mut self, work: &mut Work) -> Result<(), Stop>
        ensures no_more { work.new ≤ work.old }
    {
        self.look_up(self.settled, self.pieces.settled(), self.fresh, work)
    }

    /// Finds meetings of pieces, whose numbers begin with this one, with those of an index.
    fn look_up(
        &mut self,
        number: u32,
        pieces: &[Segment],
        index: Index,
        work: &mut Work,
    ) -> Result<(), Stop>
        ensures no_more { work.new ≤ work.old }
    {
        let mut number = number;
        for piece in pieces {
            if !piece.gain.is_none() {
                self.look_up_one(number, piece, index, work)?;
            }
            number = number.wrapping_add(1);
        }
        Ok(())
    }

    /// The same of the piece of this number.
    fn look_up_one(
        &mut self,
        number: u32,
        segment: &Segment,
        index: Index,
        work: &mut Work,
    ) -> Result<(), Stop>
        ensures no_more { work.new ≤ work.old }
    {
        let bounds = Bounds::of(segment);
        let sought = Sought {
            number,
            segment,
            bounds,
        };
        let mut place = 0;
        while let Some(group) = index.packing.tree().next_group(&mut place, &bounds, work)? {
            let (numbers, others) = index.packing.members(group);
            self.with_members(&sought, index, numbers, others, work)?;
        }
        Ok(())
    }

    /// Finds meetings of two members of a group.
    fn within(&mut self, group: usize, work: &mut Work) -> Result<(), Stop>
        ensures no_more { work.new ≤ work.old }
    {
        let fresh = self.fresh;
        let (numbers, bounds) = fresh.packing.members(group);
        let go_on = fresh.packing.go_on(group);
        let mut from = 0;
        for (place, number) in numbers.iter().enumerate() {
            if from <= place {
                from = end_of_course(go_on, place);
            }
            let others = numbers.get(from..).unwrap_or_default();
            if others.is_empty() {
                break;
            }
            let Some(sought) = fresh.sought(*number, bounds.get(place)) else {
                break;
            };
            let theirs = bounds.get(from..).unwrap_or_default();
            self.with_members(&sought, fresh, others, theirs, work)?;
        }
        Ok(())
    }

    /// Finds meetings of a member of a group with one of a later group.
    fn after(&mut self, group: usize, work: &mut Work) -> Result<(), Stop>
        ensures no_more { work.new ≤ work.old }
    {
        let tree = self.fresh.packing.tree();
        let Some(bounds) = tree.bounds(group) else {
            return Ok(());
        };
        let mut place = tree.after(group);
        while let Some(other) = tree.next_group(&mut place, &bounds, work)? {
            self.with_group(group, other, work)?;
        }
        Ok(())
    }

    /// Finds meetings of a member of one group with one of another.
    fn with_group(&mut self, group: usize, other: usize, work: &mut Work) -> Result<(), Stop>
        ensures no_more { work.new ≤ work.old }
    {
        let fresh = self.fresh;
        let Some(around) = fresh.packing.tree().bounds(other) else {
            return Ok(());
        };
        spend(work, GROUP as u64)?;
        let (numbers, bounds) = fresh.packing.members(group);
        let (others, theirs) = fresh.packing.members(other);
        for (number, its) in numbers.iter().zip(bounds) {
            if its.overlaps(&around) {
                let Some(sought) = fresh.sought(*number, Some(its)) else {
                    break;
                };
                self.with_members(&sought, fresh, others, theirs, work)?;
            }
        }
        Ok(())
    }

    /// Finds meetings of a piece with pieces of an index, given by their numbers there and their
    /// bounds.
    fn with_members(
        &mut self,
        sought: &Sought,
        index: Index,
        numbers: &[u32],
        bounds: &[Bounds],
        work: &mut Work,
    ) -> Result<(), Stop>
        ensures no_more { work.new ≤ work.old }
    {
        spend(work, numbers.len() as u64)?;
        for (other, its) in numbers.iter().zip(bounds) {
            if its.overlaps(&sought.bounds) {
                self.test(sought, index, *other, work)?;
            }
        }
        Ok(())
    }

    /// Tests whether a piece meets another one, given by its number in an index.
    fn test(
        &mut self,
        sought: &Sought,
        index: Index,
        other: u32,
        work: &mut Work,
    ) -> Result<(), Stop>
        ensures no_more { work.new ≤ work.old }
    {
        spend(work, TEST_WORK)?;
        let number = index.first.wrapping_add(other);
        match index.pieces.get(other as usize) {
            Some(its) if !its.gain.is_none() => {
                self.meetings
                    .add((sought.number, sought.segment), (number, its), work)
            }
            _ => Ok(()),
        }
    }
}

/// The place after the members of a group that go on as the one at a place does.
fn end_of_course(go_on: &[bool], place: usize) -> usize {
    let next = place.saturating_add(1);
    for after in next..go_on.len() {
        if !go_on[after] {
            return after;
        }
    }
    go_on.len().max(next)
}

impl<'a> Index<'a> {
    /// The piece of this number in it, which has these bounds.
    #[inline]
    fn sought(&self, number: u32, bounds: Option<&Bounds>) -> Option<Sought<'a>> {
        Some(Sought {
            number: self.first.wrapping_add(number),
            segment: self.pieces.get(number as usize)?,
            bounds: *bounds?,
        })
    }
}
