//! Segments split in rounds, until none is left that meets another elsewhere than in an end of both.
ghost use Rattle.std.specs.Prelude.{◌≤◌, ◌<ℤ◌, All, IfOk, IfSome};
ghost use Rattle.mvt_plane.specs.Geometry.Measure.{key_of};

use crate::pieces::{Pieces, directed};
use crate::search::find_meetings;
use crate::splitting::split;
use crate::stop::Stop;
use mvt_segments::{Segment, Tally, Work};
use std::alloc::{AllocError, Global};

/// After so many rounds that found a meeting it gives up.
const MOST_ROUNDS: u32 = 16;

/// The segments, each of which goes from the end of lesser key to the other, split where they meet
/// until no two of them have more in common than an end, with equal ones merged and those of no gain
/// left out, in the order of their ends (a, then b, by key). None where the work doesn't suffice, or
/// where too many rounds would be needed. The only error is that memory was refused.
pub fn node(
    alloc: Global,
    segments: Vec<Segment>,
    work: &mut Work,
    tally: &mut Tally,
) -> Result<Option<Vec<Segment>>, AllocError>
    ensures directed { IfOk result (λ noded. IfSome noded (λ segments.
        All (λ segment. key_of segment.a <ℤ key_of segment.b) segments.items)) }
    ensures no_more { work.new ≤ work.old }
{
    match noded(alloc, segments, work, tally) {
        Ok(noded) => Ok(Some(noded)),
        Err(Stop::Work) => Ok(None),
        Err(Stop::Memory) => Err(AllocError),
    }
}

/// The same, with what stops it as the error.
fn noded(
    alloc: Global,
    segments: Vec<Segment>,
    work: &mut Work,
    tally: &mut Tally,
) -> Result<Vec<Segment>, Stop>
    ensures directed { IfOk result (λ segments.
        All (λ segment. key_of segment.a <ℤ key_of segment.b) segments.items) }
    ensures no_more { work.new ≤ work.old }
{
    let mut pieces = Pieces::of(alloc, segments)?;
    for _ in 0..MOST_ROUNDS {
        let meetings = find_meetings(alloc, &mut pieces, work)?;
        tally.crossings = tally.crossings.saturating_add(meetings.crossings);
        if meetings.splits.is_empty() {
            return directed(pieces.into_segments(alloc)?);
        }
        split(alloc, &mut pieces, meetings.splits)?;
    }
    Err(Stop::Work)
}
