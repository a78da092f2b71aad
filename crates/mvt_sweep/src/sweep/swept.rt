//! What comes of a sweep over rings.
ghost use Rattle.std.specs.Prelude.{◌≡◌, ◌*◌, ◌≤◌, [], IfNone, IfOk, IfSome, None};
ghost use Rattle.mvt_plane.specs.Counted.{ticked};
ghost use Rattle.mvt_sweep.specs.Work.{AddsWork, IsCounted, vertex_count};
ghost use Rattle.mvt_sweep.specs.SweepWork.{AddsSweep, AddsTurns};
ghost use Rattle.mvt_sweep.specs.Calls.SweepVertices.{AreSweepVertices, IsMeetingAt};
ghost use Rattle.mvt_sweep.specs.Meeting.{IsMeetingOf};
ghost use Rattle.mvt_sweep.specs.Calls.VertexOrder.{IsOrder, IsStrict};
ghost use Rattle.mvt_sweep.specs.Rings.{rings_of, AreProperRings};
ghost use Rattle.mvt_sweep.specs.Swept.{IsSweptAnswer, met_in};
ghost use Rattle.mvt_sweep.specs.Calls.Swept.{IsSweptWith};

use crate::meeting::{Meeting, meeting_of_pair};
use crate::sweep::listing::list_of;
use crate::sweep::notes::{Notes, RingNotes};
use crate::sweep::order::{one_position, order_of};
use crate::sweep::sweep;
use crate::sweep::vertices::{Pair, SweepVertices};
use mvt_plane::{Count, Point};
use mvt_status::{Status, TreeStatus};
use std::alloc::{AllocError, Global};

/// What came of a sweep.
#[derive(Drop)]
pub enum Swept<N> {
    /// Two edges meet wrongly.
    Meets(Meeting),
    /// None do, and this was noted.
    Clear(N),
}

/// Sweeps over rings, whose vertices are given, over a status that is empty at the call. The only
/// error is that memory was refused.
pub(crate) fn sweep_over<S: Status, N: Notes>(
    alloc: Global,
    rings: &[Vec<Point>],
    vertices: &SweepVertices,
    status: &mut S,
    count: &mut Count,
) -> Result<Swept<N>, AllocError>
    requires rings { AreProperRings (rings_of rings.now) }
    requires vertices { AreSweepVertices (rings_of rings.now) vertices.now }
    requires empty { S.edges status.old ≡ [] }
    ensures swept { IfOk result (IsSweptWith (rings_of rings.now) vertices.now
        (N.are_noted (rings_of rings.now) vertices.now)) }
    ensures counted { AddsSweep 2 (vertex_count (rings_of rings.now)) count.old count.new }
    ensures turns { let rings = rings_of rings.now in
        AddsTurns (vertex_count rings) rings count.old count.new }
    ensures least { IfOk result (λ swept.
        IsCounted (vertex_count (rings_of rings.now)) count.old count.new (met_in swept)) }
{
    let order = order_of(alloc, vertices)?;
    if let Some(meeting) = meeting_at_one_position(rings, vertices, &order, count) {
        return Ok(Swept::Meets(meeting));
    }
    let mut notes = N::new(alloc, rings)?;
    let found = sweep(alloc, vertices, &order, &mut notes, status, count)?;
    Ok(match meeting_found(rings, vertices, found, count) {
        Some(meeting) => Swept::Meets(meeting),
        None => Swept::Clear(notes),
    })
}

/// Sweeps over rings, with notes of which rings are around which: the meeting of two edges, as
/// `find_meeting` answers, or the notes. The work is what `find_meeting` says of it. The only error
/// is that memory was refused, or that there are 2^32 vertices or more.
pub fn sweep_rings(
    alloc: Global,
    rings: &[Vec<Point>],
    count: &mut Count,
) -> Result<Swept<RingNotes>, AllocError>
    requires { AreProperRings (rings_of rings.now) }
    ensures answer { IfOk result (IsSweptAnswer (rings_of rings.now)) }
    ensures counted { AddsSweep 2 (vertex_count (rings_of rings.now)) count.old count.new }
    ensures turns { let rings = rings_of rings.now in
        AddsTurns (vertex_count rings) rings count.old count.new }
    ensures least { IfOk result (λ swept.
        IsCounted (vertex_count (rings_of rings.now)) count.old count.new (met_in swept)) }
{
    let list = list_of(alloc, rings)?;
    let vertices = SweepVertices::new(&list);
    sweep_over(alloc, rings, &vertices, &mut TreeStatus::new(alloc), count)
}

/// The meeting of edges that begin at one position, if any do: then there is nothing to sweep over.
fn meeting_at_one_position(
    rings: &[Vec<Point>],
    vertices: &SweepVertices,
    order: &[u32],
    count: &mut Count,
) -> Option<Meeting>
    requires rings { AreProperRings (rings_of rings.now) }
    requires vertices { AreSweepVertices (rings_of rings.now) vertices.now }
    requires order { IsOrder vertices.now order.now }
    ensures none { IfNone result (IsStrict vertices.now order.now) }
    ensures some { IfSome result (IsMeetingOf (rings_of rings.now)) }
    ensures counted { AddsWork (3 * vertex_count (rings_of rings.now)) 0 0 count.old count.new }
    ensures untested { IfNone result (count.new ≡ count.old) }
    ensures tested { IfSome result (λ _. ticked count.old.tests ≤ count.new.tests) }
{
    let (first, second) = one_position(vertices, order)?;
    let found = vertices.meeting(first, second, count);
    meeting_found(rings, vertices, found, count)
}

/// The meeting of two edges that a sweep found, if any, as one of the rings: one test more, for its
/// point.
fn meeting_found(
    rings: &[Vec<Point>],
    vertices: &SweepVertices,
    found: Option<Pair>,
    count: &mut Count,
) -> Option<Meeting>
    requires rings { AreProperRings (rings_of rings.now) }
    requires vertices { AreSweepVertices (rings_of rings.now) vertices.now }
    requires found { IfSome found (IsMeetingAt vertices.now) }
    ensures none { IfNone result (found ≡ None) }
    ensures some { IfSome result (IsMeetingOf (rings_of rings.now)) }
    ensures counted { AddsWork 1 0 0 count.old count.new }
    ensures untested { IfNone found (count.new ≡ count.old) }
    ensures tested { IfSome result (λ _. ticked count.old.tests ≤ count.new.tests) }
{
    let pair = found?;
    meeting_of_pair(rings, vertices, pair, count)
}
