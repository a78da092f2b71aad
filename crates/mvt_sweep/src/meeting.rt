//! Edges that meet wrongly.
ghost use Rattle.std.specs.Prelude.{◌≡◌, ◌*◌, ◌<◌, ◌≤◌, IfOk, IfNone, IfSome, [], length};
ghost use Rattle.mvt_plane.specs.Counted.{ticked};
ghost use Rattle.mvt_sweep.specs.Work.{AddsWork, IsCounted, vertex_count};
ghost use Rattle.mvt_sweep.specs.SweepWork.{AddsSweep, AddsTurns};
ghost use Rattle.mvt_sweep.specs.Calls.SweepVertices.{AreSweepVertices, IsNumbered, plan_of, sweep_count};
ghost use Rattle.mvt_sweep.specs.Calls.Sweep.{Tested};
ghost use Rattle.mvt_sweep.specs.Meeting.{IsMeetingOf, NoMeeting};
ghost use Rattle.mvt_sweep.specs.Rings.{rings_of, AreProperRings};

use crate::convex::are_convex_four;
use crate::pairs::{Pairs, find_pairs, meeting_among};
use crate::sweep::{
    FEW_VERTICES, FewVertices, NoNotes, Pair, SweepVertices, Swept, list_few, list_of, sweep_over,
};
use mvt_plane::{Count, Hpoint, Point};
use mvt_status::{Status, TreeStatus};
use std::alloc::{AllocError, Global};

/// Two edges that meet wrongly, the first of them before the second by ring and edge.
#[derive(Clone, Copy, Debug, PartialEq, Eq)]
pub struct Meeting {
    /// The ordinal of the first edge's ring in the slice, counted from 0.
    pub first_ring: usize,
    /// The ordinal of the first edge in its ring, counted from 0.
    pub first_edge: usize,
    /// The ordinal of the second edge's ring.
    pub second_ring: usize,
    /// The ordinal of the second edge in its ring.
    pub second_edge: usize,
    /// The point that they have in common, as `common` of `mvt_plane` names it for the first and
    /// the second edge.
    pub point: Hpoint,
}

/// Two edges of the rings that have a point in common other than the vertex that they share as
/// neighbours in a ring, or None where there are no such edges (Mapbox Vector Tile Specification
/// 2.1, section 4.3.4.4). Each ring is to have three vertices or more, none at the position of the
/// next one. `count` counts the work: of n vertices at most 3 * n tests of two edges, n * (2 *
/// bits(n) + 2) probes, which compare an edge with a vertex, and n * 20 * bits(n) nodes of the
/// status that are visited, where bits(n) is the number of n's binary digits; none of its numbers
/// falls. Only at turn vertices the status is searched and changed: both neighbours of such a
/// vertex in its ring come before it by x and then y, or both after it. So of t turn vertices there
/// are at most n + t * 2 * bits(n) probes and t * 12 * bits(n) visits. Where a meeting is found,
/// there is a test at least, and where none is, n probes. The edges are swept over. The only error
/// is that memory was refused, or that there are 2^32 vertices or more.
pub fn find_meeting(
    alloc: Global,
    rings: &[Vec<Point>],
    count: &mut Count,
) -> Result<Option<Meeting>, AllocError>
    requires { AreProperRings (rings_of rings.now) }
    ensures none { IfOk result (λ found. IfNone found (NoMeeting (rings_of rings.now))) }
    ensures some { IfOk result (λ found. IfSome found (IsMeetingOf (rings_of rings.now))) }
    ensures counted { AddsSweep 2 (vertex_count (rings_of rings.now)) count.old count.new }
    ensures turns { let rings = rings_of rings.now in
        AddsTurns (vertex_count rings) rings count.old count.new }
    ensures least { IfOk result (IsCounted (vertex_count (rings_of rings.now)) count.old
        count.new) }
{
    find_meeting_with(alloc, rings, &mut TreeStatus::new(alloc), count)
}

/// The same, over a status of the caller's that is empty at the call. Where the status is refused
/// memory, the call returns the error.
pub fn find_meeting_with<S: Status>(
    alloc: Global,
    rings: &[Vec<Point>],
    status: &mut S,
    count: &mut Count,
) -> Result<Option<Meeting>, AllocError>
    requires rings { AreProperRings (rings_of rings.now) }
    requires empty { S.edges status.old ≡ [] }
    ensures none { IfOk result (λ found. IfNone found (NoMeeting (rings_of rings.now))) }
    ensures some { IfOk result (λ found. IfSome found (IsMeetingOf (rings_of rings.now))) }
    ensures counted { AddsSweep 2 (vertex_count (rings_of rings.now)) count.old count.new }
    ensures turns { let rings = rings_of rings.now in
        AddsTurns (vertex_count rings) rings count.old count.new }
    ensures least { IfOk result (IsCounted (vertex_count (rings_of rings.now)) count.old
        count.new) }
{
    let list = list_of(alloc, rings)?;
    let vertices = SweepVertices::new(&list);
    meeting_by_sweep(alloc, rings, &vertices, status, count)
}

/// The same, where the vertices of the rings are given.
fn meeting_by_sweep<S: Status>(
    alloc: Global,
    rings: &[Vec<Point>],
    vertices: &SweepVertices,
    status: &mut S,
    count: &mut Count,
) -> Result<Option<Meeting>, AllocError>
    requires rings { AreProperRings (rings_of rings.now) }
    requires vertices { AreSweepVertices (rings_of rings.now) vertices.now }
    requires empty { S.edges status.old ≡ [] }
    ensures none { IfOk result (λ found. IfNone found (NoMeeting (rings_of rings.now))) }
    ensures some { IfOk result (λ found. IfSome found (IsMeetingOf (rings_of rings.now))) }
    ensures counted { AddsSweep 2 (vertex_count (rings_of rings.now)) count.old count.new }
    ensures turns { let rings = rings_of rings.now in
        AddsTurns (vertex_count rings) rings count.old count.new }
    ensures least { IfOk result (IsCounted (vertex_count (rings_of rings.now)) count.old
        count.new) }
{
    Ok(
        match sweep_over::<S, NoNotes>(alloc, rings, vertices, status, count)? {
            Swept::Meets(meeting) => Some(meeting),
            Swept::Clear(_) => None,
        },
    )
}

/// A self-intersection of the only ring: a meeting of two of its edges, as `find_meeting` answers.
/// Of up to 40 edges all pairs are looked at, with no memory and no sweep unless too many of them
/// need a test; four that turn one way at each vertex need none. So probes are up to 9 * n in place
/// of n, beside those at turn vertices.
pub fn self_intersection(
    alloc: Global,
    rings: &[Vec<Point>],
    count: &mut Count,
) -> Result<Option<Meeting>, AllocError>
    requires proper { AreProperRings (rings_of rings.now) }
    requires one { length rings.now ≡ 1 }
    ensures none { IfOk result (λ found. IfNone found (NoMeeting (rings_of rings.now))) }
    ensures some { IfOk result (λ found. IfSome found (IsMeetingOf (rings_of rings.now))) }
    ensures counted { let rings = rings_of rings.now in
        AddsTurns (9 * vertex_count rings) rings count.old count.new }
    ensures least { IfOk result (IsCounted (vertex_count (rings_of rings.now)) count.old
        count.new) }
{
    if rings[0].len() > FEW_VERTICES {
        return find_meeting(alloc, rings, count);
    }
    let mut list = FewVertices::new();
    list_few(rings, &mut list);
    let vertices = SweepVertices::new(&list);
    if are_convex_four(&vertices) {
        count.tick_probes(4);
        return Ok(None);
    }
    meeting_of_few(alloc, rings, &vertices, count)
}

/// The same of few vertices by pairs of their edges, or else by a sweep. (By itself, so that rings for
/// which neither is needed don't pay for its lists.)
#[inline(never)]
fn meeting_of_few(
    alloc: Global,
    rings: &[Vec<Point>],
    vertices: &SweepVertices,
    count: &mut Count,
) -> Result<Option<Meeting>, AllocError>
    requires proper { AreProperRings (rings_of rings.now) }
    requires vertices { AreSweepVertices (rings_of rings.now) vertices.now }
    requires few { sweep_count vertices.now ≤ 40 }
    ensures none { IfOk result (λ found. IfNone found (NoMeeting (rings_of rings.now))) }
    ensures some { IfOk result (λ found. IfSome found (IsMeetingOf (rings_of rings.now))) }
    ensures counted { let rings = rings_of rings.now in
        AddsTurns (9 * vertex_count rings) rings count.old count.new }
    ensures least { IfOk result (IsCounted (vertex_count (rings_of rings.now)) count.old
        count.new) }
{
    let mut pairs = Pairs::new();
    if find_pairs(vertices, &mut pairs, count) {
        return Ok(meeting_among(rings, vertices, &pairs, count));
    }
    find_meeting(alloc, rings, count)
}

/// The wrong meeting of two edges, if they have one, as one of the rings: one test.
pub(crate) fn meeting_of_pair(
    rings: &[Vec<Point>],
    vertices: &SweepVertices,
    pair: Pair,
    count: &mut Count,
) -> Option<Meeting>
    requires rings { AreProperRings (rings_of rings.now) }
    requires vertices { AreSweepVertices (rings_of rings.now) vertices.now }
    requires in_order { pair.first < pair.second }
    requires known { pair.second < sweep_count vertices.now }
    ensures none { IfNone result (Tested (plan_of vertices.now) pair.first pair.second) }
    ensures some { IfSome result (IsMeetingOf (rings_of rings.now)) }
    ensures counted { AddsWork 1 0 0 count.old count.new }
    ensures tested { count.new.tests ≡ ticked count.old.tests }
{
    let point = vertices.point_in_order(pair.first, pair.second, count)?;
    let (first_ring, first_edge) = ring_and_ordinal(rings, pair.first);
    let (second_ring, second_edge) = ring_and_ordinal(rings, pair.second);
    Some(Meeting {
        first_ring,
        first_edge,
        second_ring,
        second_edge,
        point,
    })
}

/// The ring of the vertex that has this number among all, and its ordinal there.
fn ring_and_ordinal(rings: &[Vec<Point>], number: usize) -> (usize, usize)
    requires { number < vertex_count (rings_of rings.now) }
    ensures { IsNumbered (rings_of rings.now) number (record { ring = result.0; edge = result.1 }) }
{
    let mut left = number;
    for ring in 0..rings.len() {
        let vertices = rings[ring].len();
        if left < vertices {
            return (ring, left);
        }
        left -= vertices;
    }
    unreachable!()
}
