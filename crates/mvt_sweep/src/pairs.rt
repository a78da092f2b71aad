//! Few edges: of all their pairs those are found that may meet, and only these are tested. It takes
//! no memory, and no order of the vertices.
ghost use Rattle.std.specs.Prelude.{◌≡◌, ◌+◌, ◌-◌, ◌*◌, ◌/◌, ◌<◌, ◌≤◌, IfNone, IfSome, IsTrue, false, [], length};
ghost use Rattle.mvt_sweep.specs.Work.{AddsWork, IsCounted};
ghost use Rattle.mvt_sweep.specs.Calls.Pairs.{AreEdgeBounds, AreEnough, AreEnoughForAll};
ghost use Rattle.mvt_sweep.specs.Calls.EdgeBounds.{bounds_count};
ghost use Rattle.mvt_sweep.specs.Calls.SweepVertices.{AreSweepVertices, sweep_count, plan_of};
ghost use Rattle.mvt_sweep.specs.Calls.Sweep.{Tested};
ghost use Rattle.mvt_sweep.specs.Meeting.{IsMeetingOf, NoMeeting};
ghost use Rattle.mvt_sweep.specs.Rings.{rings_of, AreProperRings};
ghost use Rattle.mvt_status.specs.Counts.{raised};

use crate::bounds::Bounds;
use crate::edge_bounds::EdgeBounds;
use crate::meeting::{Meeting, meeting_of_pair};
use crate::sweep::{Pair, SweepVertices};
use arrayvec::ArrayVec;
use mvt_plane::{Count, Point, orient};

/// Three pairs for each of `FEW_VERTICES` edges.
const MOST_PAIRS: usize = 120;

/// Pairs of edges by their numbers, the lesser one first.
pub(crate) type Pairs = ArrayVec<(u8, u8), MOST_PAIRS>;

/// Finds the pairs of edges that may meet wrongly, and answers whether these are all. It gives up
/// where such pairs are more than three times as many as the edges. A probe holds an edge against up
/// to four others: there is one at least for each edge where it doesn't give up, and for all together
/// at most eight times as many.
pub(crate) fn find_pairs(vertices: &SweepVertices, pairs: &mut Pairs, count: &mut Count) -> bool
    requires few { sweep_count vertices.now ≤ 40 }
    requires empty { pairs.old.items ≡ [] }
    ensures enough { IsTrue result → AreEnoughForAll vertices.now pairs.new.items }
    ensures counted { AddsWork 0 (8 * sweep_count vertices.now) 0 count.old count.new }
    ensures probed { IsTrue result → raised (sweep_count vertices.now) count.old.probes
        ≤ count.new.probes }
{
    let mut bounds = EdgeBounds::new();
    list_bounds(vertices, &mut bounds);
    for second in 0..vertices.len() {
        if !add_pairs(vertices, &bounds, second, pairs, count) {
            return false;
        }
    }
    true
}

/// Lists the bounds of all edges.
fn list_bounds(vertices: &SweepVertices, bounds: &mut EdgeBounds)
    requires few { sweep_count vertices.now ≤ 40 }
    requires empty { bounds_count bounds.old ≡ 0 }
    ensures { AreEdgeBounds vertices.now (sweep_count vertices.now) bounds.new }
{
    for number in 0..vertices.len() {
        bounds.push(Bounds::of_edge(&vertices.edge(number)));
    }
}

/// Adds the pairs of an edge with those of lesser numbers that it may meet wrongly, and answers
/// whether there was room. Ticks a probe for each four of these, and one for the others.
fn add_pairs(
    vertices: &SweepVertices,
    bounds: &EdgeBounds,
    second: usize,
    pairs: &mut Pairs,
    count: &mut Count,
) -> bool
    requires few { sweep_count vertices.now ≤ 40 }
    requires bounds { AreEdgeBounds vertices.now (sweep_count vertices.now) bounds.now }
    requires known { second < sweep_count vertices.now }
    requires before { AreEnough vertices.now pairs.old.items second 0 }
    ensures enough { IsTrue result → AreEnough vertices.now pairs.new.items second second }
    ensures counted { AddsWork 0 (second / 4 + 1) 0 count.old count.new }
    ensures probed { IsTrue result → raised (second / 4 + 1) count.old.probes ≤ count.new.probes }
{
    count.tick_probes((second / 4 + 1) as u64);
    if second == 0 {
        return true;
    }
    // (the edge before it is never far from it)
    add_far(vertices, bounds, second, pairs)
        && (!may_fold(vertices, second - 1, second)
            || add_pair(vertices, second - 1, second, pairs))
}

/// Adds those with all edges but the one before it.
fn add_far(vertices: &SweepVertices, bounds: &EdgeBounds, second: usize, pairs: &mut Pairs) -> bool
    requires few { sweep_count vertices.now ≤ 40 }
    requires bounds { AreEdgeBounds vertices.now (sweep_count vertices.now) bounds.now }
    requires positive { 0 < second }
    requires known { second < sweep_count vertices.now }
    requires before { AreEnough vertices.now pairs.old.items second 0 }
    ensures { IsTrue result → AreEnough vertices.now pairs.new.items second (second - 1) }
{
    let other = bounds.get(second);
    let mut first = 0;
    'fours: while second - first > 4 {
        if !bounds.four_are_apart(first, &other)
            && !add_some(vertices, bounds, first, first + 4, second, pairs)
        {
            return false;
        }
        first += 4;
    }
    add_some(vertices, bounds, first, second - 1, second, pairs)
}

/// Adds those with edges from one number up to another.
fn add_some(
    vertices: &SweepVertices,
    bounds: &EdgeBounds,
    from: usize,
    to: usize,
    second: usize,
    pairs: &mut Pairs,
) -> bool
    requires few { sweep_count vertices.now ≤ 40 }
    requires bounds { AreEdgeBounds vertices.now (sweep_count vertices.now) bounds.now }
    requires forward { from ≤ to }
    requires lesser { to ≤ second }
    requires known { second < sweep_count vertices.now }
    requires before { AreEnough vertices.now pairs.old.items second from }
    ensures { IsTrue result → AreEnough vertices.now pairs.new.items second to }
{
    let other = bounds.get(second);
    for first in from..to {
        if !bounds.get(first).are_apart(&other)
            && may_fold(vertices, first, second)
            && !add_pair(vertices, first, second, pairs)
        {
            return false;
        }
    }
    true
}

/// Adds one pair more, unless there are too many, and answers whether it did.
fn add_pair(vertices: &SweepVertices, first: usize, second: usize, pairs: &mut Pairs) -> bool
    requires few { sweep_count vertices.now ≤ 40 }
    requires in_order { first < second }
    requires known { second < sweep_count vertices.now }
    requires before { AreEnough vertices.now pairs.old.items second first }
    ensures { IsTrue result → AreEnough vertices.now pairs.new.items second (first + 1) }
{
    if pairs.len() >= 3 * vertices.len() {
        return false;
    }
    pairs.push((first as u8, second as u8));
    true
}

/// Whether two edges that aren't far apart may meet wrongly: if they are neighbours in a ring, they
/// lie along one line.
#[inline]
fn may_fold(vertices: &SweepVertices, first: usize, second: usize) -> bool
    requires first { first < sweep_count vertices.now }
    requires second { second < sweep_count vertices.now }
    ensures { result ≡ false → Tested (plan_of vertices.now) first second }
{
    let one = vertices.edge(first);
    let other = vertices.edge(second);
    if vertices.next(first) == second {
        orient(one.a, one.b, other.b) == 0
    } else if vertices.next(second) == first {
        orient(other.a, other.b, one.b) == 0
    } else {
        true
    }
}

/// The first wrong meeting of edges of which these pairs are to be tested, as one of the rings.
/// Makes one test for each pair, up to the one that it answers.
pub(crate) fn meeting_among(
    rings: &[Vec<Point>],
    vertices: &SweepVertices,
    pairs: &[(u8, u8)],
    count: &mut Count,
) -> Option<Meeting>
    requires rings { AreProperRings (rings_of rings.now) }
    requires vertices { AreSweepVertices (rings_of rings.now) vertices.now }
    requires pairs { AreEnoughForAll vertices.now pairs.now }
    ensures none { IfNone result (NoMeeting (rings_of rings.now)) }
    ensures some { IfSome result (IsMeetingOf (rings_of rings.now)) }
    ensures counted { AddsWork (length pairs.now) 0 0 count.old count.new }
    ensures least { IsCounted 0 count.old count.new result }
    ensures tested { IfNone result (raised (length pairs.now) count.old.tests ≤ count.new.tests) }
{
    for at in 0..pairs.len() {
        let (first, second) = pairs[at];
        let pair = Pair {
            first: first as usize,
            second: second as usize,
        };
        if let Some(meeting) = meeting_of_pair(rings, vertices, pair, count) {
            return Some(meeting);
        }
    }
    None
}
