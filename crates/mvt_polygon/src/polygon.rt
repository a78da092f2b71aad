//! The first fault of a polygon: edges that meet wrongly, or else a hole that isn't where it should
//! be.
ghost use Rattle.std.specs.Prelude.{◌≡◌, ◌*◌, ◌<◌, ◌≤◌, IfOk, IfSome, length, option_map, slice_range};
ghost use Rattle.mvt_sweep.specs.Work.{IsCounted, vertex_count};
ghost use Rattle.mvt_sweep.specs.SweepWork.{AddsSweep, AddsTurns};
ghost use Rattle.mvt_polygon.specs.Calls.RingsKnown.{AreRingsKnown};
ghost use Rattle.mvt_polygon.specs.PolygonFault.{IsAnswerAlone, IsPolygonAnswer, fault_in_feature, meeting_in};
ghost use Rattle.mvt_sweep.specs.Rings.{rings_of, AreProperRings};
ghost use Rattle.mvt_polygon.specs.declared.polygon.PolygonFault.TheVariants as faults;

use crate::nesting::NestFault;
use crate::nesting::noted::fault_of_holes;
use mvt_plane::{Count, Point};
use mvt_sweep::{Meeting, Swept, self_intersection, sweep_rings};
use std::alloc::{AllocError, Global};

/// What is wrong with a polygon.
#[derive(Clone, Copy, Debug, PartialEq, Eq)]
pub enum PolygonFault {
    /// Two of its edges meet wrongly.
    Meeting(Meeting),
    /// No edges do, but a hole isn't where it should be.
    Nesting(NestFault),
}

/// The first fault of a polygon of a feature: a meeting, as `find_meeting` answers of its rings, or
/// else what `check_nesting` answers of them, or None where there is neither (Mapbox Vector Tile
/// Specification 2.1, section 4.3.4.4). The polygon's first ring is the exterior, the rings after it
/// are the holes, up to the ring `after` the last one; the answer names them by their ordinals in the
/// feature. Each ring is to have three vertices or more, none at the position of the next one. One
/// sweep decides both: where its line comes to a ring, the edges below say which rings are around it.
/// A polygon of one ring has no holes, so nothing is noted of it; if it has at most 40 edges, all
/// pairs are checked, and it is swept over only where more than three pairs for each edge need a test.
/// So of n vertices it makes at most 3 * n tests of two edges, n * (2 * bits(n) + 10) probes, which
/// hold an edge against a vertex or up to four other edges, and n * 20 * bits(n) visits of the
/// status's nodes, as `count` has it, also where rings are many. Of t turn vertices, as
/// `find_meeting` has them, it makes at most 9 * n + t * 2 * bits(n) probes and t * 12 * bits(n)
/// visits. It makes a test at least where it finds a meeting, and else n probes. The only error is
/// that memory was refused, or that there are 2^32 vertices or more.
pub fn check_polygon(
    alloc: Global,
    rings: &[Vec<Point>],
    exterior: usize,
    after: usize,
    count: &mut Count,
) -> Result<Option<PolygonFault>, AllocError>
    requires drawn { AreProperRings (rings_of rings.now) }
    requires in_order { exterior ≤ after }
    requires within { after ≤ length rings.now }
    ensures answer { IfOk result (IsPolygonAnswer (rings_of rings.now)
        (record { exterior = exterior; after = after })) }
    ensures counted { let own = slice_range (rings_of rings.now) exterior after in
        AddsSweep 10 (vertex_count own) count.old count.new }
    ensures turns { let own = slice_range (rings_of rings.now) exterior after in
        AddsTurns (9 * vertex_count own) own count.old count.new }
    ensures least { IfOk result (λ found.
        IsCounted (vertex_count (slice_range (rings_of rings.now) exterior after)) count.old
        count.new (meeting_in found)) }
{
    let found = check_alone(alloc, &rings[exterior..after], count)?;
    Ok(fault_in_feature(exterior, found))
}

/// The fault of the polygon's rings alone, with the ordinals that they have in the feature.
fn fault_in_feature(exterior: usize, found: Option<PolygonFault>) -> Option<PolygonFault>
    requires { IfSome found (AreRingsKnown exterior) }
    ensures { result ≡ option_map (fault_in_feature exterior) found }
{
    Some(match found? {
        PolygonFault::Meeting(meeting) => PolygonFault::Meeting(Meeting {
            first_ring: exterior + meeting.first_ring,
            second_ring: exterior + meeting.second_ring,
            ..meeting
        }),
        PolygonFault::Nesting(fault) => PolygonFault::Nesting(fault.in_feature(exterior)),
    })
}

/// What `check_polygon` answers of the rings of one polygon alone, by their ordinals in this slice.
fn check_alone(
    alloc: Global,
    rings: &[Vec<Point>],
    count: &mut Count,
) -> Result<Option<PolygonFault>, AllocError>
    requires { AreProperRings (rings_of rings.now) }
    ensures answer { IfOk result (IsAnswerAlone (rings_of rings.now)) }
    ensures counted { let rings = rings_of rings.now in
        AddsTurns (9 * vertex_count rings) rings count.old count.new }
    ensures least { IfOk result (λ found.
        IsCounted (vertex_count (rings_of rings.now)) count.old count.new (meeting_in found)) }
{
    if rings.len() == 1 {
        return Ok(meeting_as_fault(self_intersection(alloc, rings, count)?));
    }
    check_with_holes(alloc, rings, count)
}

/// The same by notes of the rings.
fn check_with_holes(
    alloc: Global,
    rings: &[Vec<Point>],
    count: &mut Count,
) -> Result<Option<PolygonFault>, AllocError>
    requires { AreProperRings (rings_of rings.now) }
    ensures answer { IfOk result (IsAnswerAlone (rings_of rings.now)) }
    ensures counted { let rings = rings_of rings.now in
        AddsTurns (2 * vertex_count rings) rings count.old count.new }
    ensures least { IfOk result (λ found.
        IsCounted (vertex_count (rings_of rings.now)) count.old count.new (meeting_in found)) }
{
    Ok(match sweep_rings(alloc, rings, count)? {
        Swept::Meets(meeting) => Some(PolygonFault::Meeting(meeting)),
        Swept::Clear(notes) => nesting_as_fault(fault_of_holes(rings, &notes, count)),
    })
}

/// The fault where a meeting was found.
fn meeting_as_fault(found: Option<Meeting>) -> Option<PolygonFault>
    ensures { result ≡ option_map faults.Meeting found }
{
    match found {
        Some(meeting) => Some(PolygonFault::Meeting(meeting)),
        None => None,
    }
}

/// The fault where a hole was found that isn't where it should be.
fn nesting_as_fault(found: Option<NestFault>) -> Option<PolygonFault>
    ensures { result ≡ option_map faults.Nesting found }
{
    match found {
        Some(fault) => Some(PolygonFault::Nesting(fault)),
        None => None,
    }
}
