//! A line that goes over segments from vertex to vertex, and keeps the ones that it meets in their
//! order from below to above.

use crate::faces::chains::{Chains, OUTSIDE};
use crate::faces::stop::{Stop, numbered, put};
use mvt_plane::{Point, side, sweep_key};
use mvt_segments::{Segment, Work};
use std::alloc::Global;

/// What is noted while the line goes over segments.
pub(crate) trait Notes {
    /// The segment of this number begins, directly above another one or above none
    /// (`NO_SEGMENT`). Of those that begin at one position the lowest comes first. For the highest of
    /// them `like` is given: what is directly above it is what is directly above that one, or above
    /// none.
    fn begin(
        &mut self,
        number: u32,
        below: u32,
        like: Option<u32>,
        work: &mut Work,
    ) -> Result<(), Stop>;

    /// The segment of this number begins where one ends, and no other one does either: it has on its
    /// sides what that one has. `below` is as for `begin`.
    fn follow(&mut self, number: u32, below: u32, ended: u32, work: &mut Work) -> Result<(), Stop>;

    /// What is directly above one segment is what is directly above another one too, as they show
    /// at a position where the other ends and none begins. The one may be none.
    fn go_on(&mut self, one: u32, other: u32) -> Result<(), Stop>;
}

/// Goes over segments, which stand in the order of the keys of their first ends, with notes of each.
/// `ends` has their numbers in the order of the keys of their second ends.
/// Gives up where the work doesn't suffice, and where segments that end at one position aren't
/// neighbours there, which can't be if segments meet in ends only.
pub(crate) fn sweep<N: Notes>(
    alloc: Global,
    segments: &[Segment],
    ends: &[u32],
    notes: &mut N,
    work: &mut Work,
) -> Result<(), Stop> {
    let mut line = Line::new(alloc, segments)?;
    let mut events = Events::of(segments, ends);
    // at each position that is gone over a segment begins or ends
    for _ in 0..segments.len().saturating_mul(2) {
        let Some(key) = events.key() else {
            break;
        };
        let (begin, end) = (events.begin, events.end);
        events.pass(key);
        let ended = ends.get(end..events.end).ok_or(Stop::GaveUp)?;
        line.pass(key, begin, events.begin, ended, notes, work)?;
    }
    Ok(())
}

/// No position has so great a key.
const AFTER_ALL: i64 = i64::MAX;

/// The positions at which segments begin or end, in the order of their keys, from one on.
#[derive(Clone, Copy)]
struct Events<'a> {
    segments: &'a [Segment],
    ends: &'a [u32],
    /// The number of the segment that begins next, and the key of the position where it does.
    begin: usize,
    begin_key: i64,
    /// The same of the one that ends next, by its place in the order of ends.
    end: usize,
    end_key: i64,
}

impl<'a> Events<'a> {
    /// All of them.
    fn of(segments: &'a [Segment], ends: &'a [u32]) -> Events<'a> {
        let mut events = Events {
            segments,
            ends,
            begin: 0,
            begin_key: AFTER_ALL,
            end: 0,
            end_key: AFTER_ALL,
        };
        if let Some(first) = segments.first() {
            events.begin_key = sweep_key(first.a);
        }
        events.end_key = events.end_key_at(0);
        events
    }

    /// The key of the first of them, if there is one.
    #[inline]
    fn key(&self) -> Option<i64> {
        let key = self.begin_key.min(self.end_key);
        if key == AFTER_ALL { None } else { Some(key) }
    }

    /// Goes on after the first one, whose key this is.
    #[inline]
    fn pass(&mut self, key: i64) {
        if self.begin_key == key {
            self.pass_begun(key);
        }
        if self.end_key == key {
            self.pass_ended(key);
        }
    }

    /// Goes on after the segments that begin at the position of this key.
    #[inline]
    fn pass_begun(&mut self, key: i64) {
        let segments = self.segments;
        for number in self.begin..segments.len() {
            let next = sweep_key(segments[number].a);
            if next != key {
                self.begin = number;
                self.begin_key = next;
                return;
            }
        }
        self.begin = segments.len();
        self.begin_key = AFTER_ALL;
    }

    /// The same of the ones that end there.
    #[inline]
    fn pass_ended(&mut self, key: i64) {
        for place in self.end..self.ends.len() {
            let next = self.end_key_at(place);
            if next != key {
                self.end = place;
                self.end_key = next;
                return;
            }
        }
        self.end = self.ends.len();
        self.end_key = AFTER_ALL;
    }

    /// The key of the second end of the segment whose number has this place.
    #[inline]
    fn end_key_at(&self, place: usize) -> i64 {
        let segment = match self.ends.get(place) {
            Some(number) => self.segments.get(*number as usize),
            None => None,
        };
        match segment {
            Some(segment) => sweep_key(segment.b),
            None => AFTER_ALL,
        }
    }
}

/// The line, with the chains that it meets.
#[derive(Drop)]
struct Line<'a> {
    segments: &'a [Segment],
    chains: Chains,
    /// By the number of each segment that began its chain.
    chain_of: Vec<u32>,
    /// The numbers of the segments that begin at a position, from below to above.
    begun: Vec<u32>,
    /// The same with their slopes.
    slopes: Vec<(i128, u32)>,
}

impl<'a> Line<'a> {
    /// Before all segments. The only error is that memory was refused.
    fn new(alloc: Global, segments: &'a [Segment]) -> Result<Line<'a>, Stop> {
        Ok(Line {
            segments,
            chains: Chains::new(alloc)?,
            chain_of: vec![in alloc; OUTSIDE; segments.len()]?,
            begun: Vec::new(alloc),
            slopes: Vec::new(alloc),
        })
    }

    /// Goes over the position of a key, where segments end, and those of the numbers from one up to
    /// another begin. As far as there are chains that end, those that begin take their places.
    fn pass<N: Notes>(
        &mut self,
        key: i64,
        begin: usize,
        after: usize,
        ended: &[u32],
        notes: &mut N,
        work: &mut Work,
    ) -> Result<(), Stop> {
        if let [only] = ended {
            if begin.wrapping_add(1) == after {
                return self.go_on(key, *only, begin, notes, work);
            }
        }
        self.list_begun(begin, after)?;
        self.pass_listed(key, ended, notes, work)
    }

    /// The same, where the segments that begin there were listed.
    fn pass_listed<N: Notes>(
        &mut self,
        key: i64,
        ended: &[u32],
        notes: &mut N,
        work: &mut Work,
    ) -> Result<(), Stop> {
        let chain = self.chain_below(key, ended, work)?;
        let below = self.chains.segment(chain)?;
        let highest = self.highest_ended(chain, below, ended)?;
        self.begin_all(key, chain, highest, ended.len(), notes, work)?;
        if self.begun.is_empty() {
            notes.go_on(below, highest)?;
        }
        Ok(())
    }

    /// Goes over the position of a key where one segment ends and another one begins.
    #[inline]
    fn go_on<N: Notes>(
        &mut self,
        key: i64,
        ended: u32,
        begun: usize,
        notes: &mut N,
        work: &mut Work,
    ) -> Result<(), Stop> {
        let (chain, under) = self.chain_alone(key, ended)?;
        let number = numbered(begun)?;
        self.take_over(chain, number)?;
        notes.follow(number, under, ended, work)
    }

    /// The chain of the only segment that ends at the position of a key, and the segment directly below
    /// it.
    #[inline]
    fn chain_alone(&self, key: i64, ended: u32) -> Result<(u32, u32), Stop> {
        let chain = self.chain_ended(ended)?;
        let below = self.chains.below(chain)?;
        if self.chains.ends_at(below, key)? || !self.chains.ends_at(chain, key)? {
            return Err(Stop::GaveUp);
        }
        Ok((chain, self.chains.segment(below)?))
    }

    /// A chain, whose segment ends, goes on with another one.
    #[inline]
    fn take_over(&mut self, chain: u32, number: u32) -> Result<(), Stop> {
        let segment = self.segment(number)?;
        self.chains.go_on(chain, number, segment)?;
        put(&mut self.chain_of, number, chain)
    }

    /// The segments that were listed begin, the lowest directly above a chain, and of the chains above
    /// it, so many of which end, those end that aren't needed for them. `highest` is the highest of
    /// the segments that end.
    fn begin_all<N: Notes>(
        &mut self,
        key: i64,
        chain: u32,
        highest: u32,
        ended: usize,
        notes: &mut N,
        work: &mut Work,
    ) -> Result<(), Stop> {
        let mut chain = chain;
        let mut below = self.chains.segment(chain)?;
        let count = self.begun.len();
        for at in 0..count {
            let number = *self.begun.get(at).ok_or(Stop::GaveUp)?;
            chain = self.put_above(chain, key, number, at < ended, work)?;
            let like = if at + 1 == count { Some(highest) } else { None };
            notes.begin(number, below, like, work)?;
            below = number;
        }
        self.end_others(key, chain, ended.saturating_sub(count), work)
    }

    /// So many chains directly above another one end at the position of a key.
    fn end_others(
        &mut self,
        key: i64,
        chain: u32,
        count: usize,
        work: &mut Work,
    ) -> Result<(), Stop> {
        for _ in 0..count {
            self.chains.end_above(chain, key, work)?;
        }
        Ok(())
    }

    /// The highest of the segments that end at a position. Where none does, the segment of the chain
    /// directly below it, which is `below`.
    #[inline]
    fn highest_ended(&self, chain: u32, below: u32, ended: &[u32]) -> Result<u32, Stop> {
        match ended {
            [] => Ok(below),
            [only] => Ok(*only),
            _ => {
                let mut highest = chain;
                for _ in ended {
                    highest = self.chains.above(highest)?;
                }
                self.chains.segment(highest)
            }
        }
    }

    /// The chain directly below those that end at the position of a key, or where none ends, below
    /// those that begin there.
    fn chain_below(&self, key: i64, ended: &[u32], work: &mut Work) -> Result<u32, Stop> {
        if !ended.is_empty() {
            return self.chain_below_ended(key, ended);
        }
        let (Some(lowest), Some(highest)) = (self.begun.first(), self.begun.last()) else {
            return Err(Stop::GaveUp);
        };
        let lowest = self.segment(*lowest)?;
        let highest = self.segment(*highest)?;
        self.chains.find_below(lowest, highest, work)
    }

    /// The chain directly below those that end at the position of a key.
    fn chain_below_ended(&self, key: i64, ended: &[u32]) -> Result<u32, Stop> {
        for number in ended {
            let chain = self.chain_ended(*number)?;
            let below = self.chains.below(chain)?;
            if !self.chains.ends_at(below, key)? {
                return Ok(below);
            }
        }
        Err(Stop::GaveUp)
    }

    /// The chain of a segment that ends.
    #[inline]
    fn chain_ended(&self, number: u32) -> Result<u32, Stop> {
        let chain = *self.chain_of.get(number as usize).ok_or(Stop::GaveUp)?;
        if chain == OUTSIDE {
            return Err(Stop::GaveUp);
        }
        Ok(chain)
    }

    /// A segment comes directly above a chain: with it the chain above goes on, or a chain begins.
    /// Returns the chain that has it.
    fn put_above(
        &mut self,
        below: u32,
        key: i64,
        number: u32,
        goes_on: bool,
        work: &mut Work,
    ) -> Result<u32, Stop> {
        let segment = self.segment(number)?;
        let chain = if goes_on {
            self.chains.go_on_above(below, key, number, segment)?
        } else {
            self.chains.begin_above(below, number, segment, work)?
        };
        put(&mut self.chain_of, number, chain)?;
        Ok(chain)
    }

    /// The segment of a number.
    #[inline]
    fn segment(&self, number: u32) -> Result<&'a Segment, Stop> {
        self.segments.get(number as usize).ok_or(Stop::GaveUp)
    }

    /// Lists the segments of the numbers from one up to another, which begin at one position, from
    /// below to above.
    #[inline]
    fn list_begun(&mut self, begin: usize, after: usize) -> Result<(), Stop> {
        let begun = self.segments.get(begin..after).ok_or(Stop::GaveUp)?;
        let number = numbered(begin)?;
        self.begun.clear();
        if begun.len() > 2 {
            return self.list_by_slope(begun, number);
        }
        self.list_few(begun, number)
    }

    /// The same of two segments at most, whose numbers begin with this one.
    #[inline]
    fn list_few(&mut self, begun: &[Segment], first: u32) -> Result<(), Stop> {
        let mut number = first;
        for _ in begun {
            self.begun.push(number)?;
            number = number.wrapping_add(1);
        }
        if are_turned(begun) {
            self.begun.reverse();
        }
        Ok(())
    }

    /// The same of segments whose numbers begin with this one, through a list of them with their
    /// slopes.
    fn list_by_slope(&mut self, begun: &[Segment], first: u32) -> Result<(), Stop> {
        self.list_slopes(begun, first)?;
        self.slopes.sort_unstable_by_key(|pair| pair.0);
        for (_, number) in &self.slopes {
            self.begun.push(*number)?;
        }
        Ok(())
    }

    /// Lists the slopes of these segments with their numbers.
    fn list_slopes(&mut self, begun: &[Segment], first: u32) -> Result<(), Stop> {
        self.slopes.clear();
        let mut number = first;
        for segment in begun {
            self.slopes.push((slope(segment.a, segment.b), number))?;
            number = number.wrapping_add(1);
        }
        Ok(())
    }
}

/// Whether these are two segments that begin at one position, the second of which is below the first
/// one.
#[inline]
fn are_turned(begun: &[Segment]) -> bool {
    match begun {
        [first, second] => side(first.a, first.b, second.b).is_lt(),
        _ => false,
    }
}

/// A number for the slope of a segment to the right: the steeper it rises, the greater. Two slopes
/// are at least 1 / 2^62 apart, so times 2^64 they differ when they are rounded.
fn slope(from: Point, to: Point) -> i128 {
    let x_step = i64::from(to.x()) - i64::from(from.x());
    let y_step = i64::from(to.y()) - i64::from(from.y());
    let enlarged = i128::from(y_step) * (1 << 64);
    enlarged
        .checked_div(i128::from(x_step))
        .unwrap_or(i128::MAX)
}
