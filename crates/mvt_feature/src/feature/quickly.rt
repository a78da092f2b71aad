//! A fault of a feature whose polygons are kept apart: its first one, or any meeting of its edges.
ghost use Rattle.std.specs.Prelude.{◌≡◌, ℕ, ◌<◌, ◌≤◌, ◌↔◌, length, IfOk, IsTrue};
ghost use Rattle.mvt_feature.specs.Calls.FeatureParts.{fault_after, listed_at};
ghost use Rattle.mvt_feature.specs.Calls.Islands.{AreMarked};
ghost use Rattle.mvt_feature.specs.Calls.QuickParts.{IsMeetingFault, IsTogetherAnswer};
ghost use Rattle.mvt_sweep.specs.Work.{vertex_count};
ghost use Rattle.mvt_feature.specs.Feature.{AddsSweeps, IsCountedAnswer};
ghost use Rattle.mvt_rules.specs.Polygon.{IsRingOf};
ghost use Rattle.mvt_rules.specs.Ring.{ArePolygonRings};
ghost use Rattle.mvt_polygon.specs.Polygons.{ArePolygons};
ghost use Rattle.mvt_feature.specs.QuickFeature.{IsQuickAnswer};
ghost use Rattle.mvt_sweep.specs.Rings.{rings_of, AreProperRings};

use super::{FeatureCause, FeatureFault, are_all, fault_alone, first_of};
use crate::feature::crowded::crowded;
use crate::feature::front::polygon_of;
use crate::feature::gathered::gather;
use crate::feature::placed::first_misplaced;
use mvt_plane::{Count, Point};
use mvt_polygon::groups;
use mvt_sweep::{Meeting, Swept, sweep_rings};
use std::alloc::{AllocError, Global};

/// What `check_feature` answers, or a meeting of edges, of whichever polygon: the one that is found
/// first, so that no earlier one has to be searched for. None is answered exactly where
/// `check_feature` answers None; and where no edges of the feature meet wrongly, the answer is the
/// same.
///
/// `count` counts the work as there: of two sweeps over the feature's vertices at most, and of one
/// where there is no fault. Not counted is which bounds are apart and which polygons are islands,
/// which takes the time of some sorts; and nothing else takes more than that. The only error is
/// that memory was refused, or that a sweep would go over 2^32 vertices or more.
pub fn check_feature_quickly(
    alloc: Global,
    rings: &[Vec<Point>],
    count: &mut Count,
) -> Result<Option<FeatureFault>, AllocError>
    requires sound { ArePolygonRings (rings_of rings.now) }
    requires drawn { AreProperRings (rings_of rings.now) }
    ensures answer { IfOk result (IsQuickAnswer (rings_of rings.now)) }
    ensures counted { AddsSweeps 2 (vertex_count (rings_of rings.now)) count.old count.new }
    ensures by_answer { IfOk result (IsCountedAnswer (rings_of rings.now) count.old count.new) }
{
    let polygons = groups(alloc, rings)?;
    if polygons.len() == 1 {
        return fault_alone(alloc, rings, &polygons, &[false], count);
    }
    let crowded = crowded(alloc, rings, &polygons)?;
    if are_all(&crowded) {
        return check_together_quickly(alloc, rings, count);
    }
    check_parted_quickly(alloc, rings, &polygons, &crowded, count)
}

/// What `check_feature_quickly` answers: the polygons that aren't crowded are checked one by one,
/// the others together. A meeting of these is reported, whatever is found of the first.
fn check_parted_quickly(
    alloc: Global,
    rings: &[Vec<Point>],
    polygons: &[(usize, usize)],
    crowded: &[bool],
    count: &mut Count,
) -> Result<Option<FeatureFault>, AllocError>
    requires sound { ArePolygonRings (rings_of rings.now) }
    requires drawn { AreProperRings (rings_of rings.now) }
    requires listed { ArePolygons (rings_of rings.now) polygons.now }
    requires marked { AreMarked (rings_of rings.now) polygons.now crowded.now }
    ensures answer { IfOk result (IsQuickAnswer (rings_of rings.now)) }
    ensures counted { AddsSweeps 2 (vertex_count (rings_of rings.now)) count.old count.new }
    ensures by_answer { IfOk result (IsCountedAnswer (rings_of rings.now) count.old count.new) }
{
    let alone = fault_alone(alloc, rings, polygons, crowded, count)?;
    let gathered = gather(alloc, rings, polygons, crowded)?;
    let found = check_together_quickly(alloc, &gathered.rings, count)?;
    let other = gathered.in_feature(polygons, found);
    if is_meeting(&other) {
        return Ok(other);
    }
    Ok(first_of(alone, other))
}

/// Whether the fault is that edges meet.
fn is_meeting(found: &Option<FeatureFault>) -> bool
    ensures { IsTrue result ↔ IsMeetingFault found.now }
{
    match found {
        Some(fault) => matches!(fault.cause, FeatureCause::Meeting(_)),
        None => false,
    }
}

/// What `check_feature_quickly` answers, by one sweep over all rings together: the meeting that it
/// finds, or else the first polygon that isn't where it should be.
fn check_together_quickly(
    alloc: Global,
    rings: &[Vec<Point>],
    count: &mut Count,
) -> Result<Option<FeatureFault>, AllocError>
    requires sound { ArePolygonRings (rings_of rings.now) }
    requires drawn { AreProperRings (rings_of rings.now) }
    ensures answer { IfOk result (IsTogetherAnswer (rings_of rings.now)) }
    ensures counted { AddsSweeps 2 (vertex_count (rings_of rings.now)) count.old count.new }
    ensures by_answer { IfOk result (IsCountedAnswer (rings_of rings.now) count.old count.new) }
{
    let polygons = groups(alloc, rings)?;
    match sweep_rings(alloc, rings, count)? {
        Swept::Clear(notes) => first_misplaced(alloc, rings, &polygons, &notes, count),
        Swept::Meets(meeting) => Ok(Some(fault_of_second(&polygons, meeting))),
    }
}

/// The fault of a meeting: of the polygon that its second ring belongs to.
fn fault_of_second(polygons: &[(usize, usize)], meeting: Meeting) -> FeatureFault
    requires { (polygon : ℕ) × (polygon < length polygons.now)
        × IsRingOf (listed_at polygons.now polygon) meeting.second_ring }
    ensures within { result.polygon < length polygons.now }
    ensures of { meeting.second_ring < (listed_at polygons.now result.polygon).after }
    ensures first { (earlier : ℕ) → earlier < result.polygon
        → (listed_at polygons.now earlier).after ≤ meeting.second_ring }
    ensures is { result ≡ fault_after polygons.now result.polygon meeting }
{
    let polygon = polygon_of(polygons, meeting.second_ring);
    let (exterior, after) = polygons[polygon];
    FeatureFault {
        polygon,
        exterior,
        after,
        cause: FeatureCause::Meeting(meeting),
    }
}
