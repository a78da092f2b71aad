//! The first fault of a feature whose polygons are kept apart.
ghost use Rattle.std.specs.Prelude.{◌≡◌, ℕ, ◌+◌, ◌<◌, ◌≤◌, length, option_map, slice_range, IfNone, IfOk, IfSome};
ghost use Rattle.mvt_feature.specs.Calls.Alone.{earlier_of, own_fault, vertices_alone, IsAloneAnswer, IsOwnAnswer};
ghost use Rattle.mvt_feature.specs.Calls.Islands.{AreMarked};
ghost use Rattle.mvt_sweep.specs.Work.{vertex_count};
ghost use Rattle.mvt_feature.specs.Feature.{AddsSweeps, AreAtMost, IsCountedAnswer, IsCountedFault, IsFeatureAnswer};
ghost use Rattle.mvt_sweep.specs.Meeting.{NoMeeting};
ghost use Rattle.mvt_rules.specs.Ring.{ArePolygonRings};
ghost use Rattle.mvt_polygon.specs.Polygons.{ArePolygons};
ghost use Rattle.mvt_sweep.specs.Rings.{rings_of, AreProperRings};
ghost use Rattle.mvt_status.specs.Counts.{bits, raised};

mod crowded;
mod front;
mod gathered;
mod islands;
mod lakes;
mod lands;
mod later;
mod lies_in;
mod passing;
mod placed;
mod quickly;
mod together;

use crowded::crowded;
use gathered::gather;
use mvt_plane::{Count, Point};
use mvt_polygon::{ApartFault, NestFault, PolygonFault, check_polygon, groups};
use mvt_sweep::Meeting;
pub use quickly::check_feature_quickly;
use std::alloc::{AllocError, Global};
use together::check_together;

/// What is wrong with a polygon of a feature whose polygons are kept apart. Rings have the ordinals
/// that they have in the feature.
#[derive(Clone, Copy, Debug, PartialEq, Eq)]
pub enum FeatureCause {
    /// One of its edges meets another one, of its own or of a polygon before it, wrongly.
    Meeting(Meeting),
    /// None does, but a hole isn't where it should be.
    Nesting(NestFault),
    /// All are, but a vertex of its exterior is inside another polygon.
    Apart(ApartFault),
}

/// The first polygon of a feature with a fault.
#[derive(Clone, Copy, Debug, PartialEq, Eq)]
pub struct FeatureFault {
    /// The ordinal of the polygon in the feature, counted from 0.
    pub polygon: usize,
    /// The ordinal of its exterior among the feature's rings, counted from 0. Its holes are the
    /// rings after it.
    pub exterior: usize,
    /// The ordinal after that of its last ring.
    pub after: usize,
    /// What is wrong with it.
    pub cause: FeatureCause,
}

/// The first polygon of a feature with a fault, where polygons may not cross, touch or lie in each
/// other but in a hole (Mapbox Vector Tile Specification 2.1, section 4.3.4.4, more strictly), or
/// None. Its fault is an edge that meets one of its own, or of a polygon before it, wrongly; or
/// else the first fault of a hole; or else the first vertex of its exterior that is inside another
/// polygon. No ring has a fault of its own (`check_rings`), and each has three vertices or more,
/// none at the position of the next one.
///
/// Polygons whose bounds are apart from those of all others are checked one by one, and so are
/// islands in the lakes of a polygon, with that polygon; the others by sweeps. `count` counts the
/// work: of a sweep over n vertices at most 3 * n tests of two edges, n * (2 * bits(n) + 10) probes
/// and n * 20 * bits(n) visits of the status's nodes, where bits(n) is the number of n's binary
/// digits. That is all where there is no fault. Where no edges meet it is twice as much at most;
/// and where they do, as often as the number of polygons has binary digits, and twice more. Where a
/// fault is found, at least a test was counted if it is a meeting, and else as many probes as its
/// polygon has vertices; where there is none, n probes. Not counted is which bounds are apart and
/// which polygons are islands, which takes the time of some sorts. Nor is it that, where edges
/// meet, the polygons before the first one with a meeting are held against those from it on: where
/// the bounds of most of them overlap, this takes their vertices times the edges of the others. The
/// only error is that memory was refused, or that a sweep would go over 2^32 vertices or more.
pub fn check_feature(
    alloc: Global,
    rings: &[Vec<Point>],
    count: &mut Count,
) -> Result<Option<FeatureFault>, AllocError>
    requires sound { ArePolygonRings (rings_of rings.now) }
    requires drawn { AreProperRings (rings_of rings.now) }
    ensures answer { IfOk result (IsFeatureAnswer (rings_of rings.now)) }
    ensures counted { (polygons : ℕ) → AreAtMost (rings_of rings.now) polygons
        → AddsSweeps (bits polygons + 2) (vertex_count (rings_of rings.now)) count.old count.new }
    ensures apart { NoMeeting (rings_of rings.now)
        → AddsSweeps 2 (vertex_count (rings_of rings.now)) count.old count.new }
    ensures by_answer { IfOk result (IsCountedAnswer (rings_of rings.now) count.old count.new) }
{
    let polygons = groups(alloc, rings)?;
    if polygons.len() == 1 {
        return fault_alone(alloc, rings, &polygons, &[false], count);
    }
    let crowded = crowded(alloc, rings, &polygons)?;
    if are_all(&crowded) {
        return check_together(alloc, rings, count);
    }
    check_parted(alloc, rings, &polygons, &crowded, count)
}

/// What `check_feature` answers: the polygons that aren't crowded are checked one by one, the
/// others together.
fn check_parted(
    alloc: Global,
    rings: &[Vec<Point>],
    polygons: &[(usize, usize)],
    crowded: &[bool],
    count: &mut Count,
) -> Result<Option<FeatureFault>, AllocError>
    requires sound { ArePolygonRings (rings_of rings.now) }
    requires drawn { AreProperRings (rings_of rings.now) }
    requires listed { ArePolygons (rings_of rings.now) polygons.now }
    requires marked { AreMarked (rings_of rings.now) polygons.now crowded.now }
    ensures answer { IfOk result (IsFeatureAnswer (rings_of rings.now)) }
    ensures counted { (polygons : ℕ) → AreAtMost (rings_of rings.now) polygons
        → AddsSweeps (bits polygons + 2) (vertex_count (rings_of rings.now)) count.old count.new }
    ensures apart { NoMeeting (rings_of rings.now)
        → AddsSweeps 2 (vertex_count (rings_of rings.now)) count.old count.new }
    ensures by_answer { IfOk result (IsCountedAnswer (rings_of rings.now) count.old count.new) }
{
    let alone = fault_alone(alloc, rings, polygons, crowded, count)?;
    let gathered = gather(alloc, rings, polygons, crowded)?;
    let found = check_together(alloc, &gathered.rings, count)?;
    Ok(first_of(alone, gathered.in_feature(polygons, found)))
}

/// Whether all are true.
fn are_all(marks: &[bool]) -> bool {
    for mark in marks {
        if !*mark {
            return false;
        }
    }
    true
}

/// The first of the polygons apart from all others that has a fault.
fn fault_alone(
    alloc: Global,
    rings: &[Vec<Point>],
    polygons: &[(usize, usize)],
    crowded: &[bool],
    count: &mut Count,
) -> Result<Option<FeatureFault>, AllocError>
    requires drawn { AreProperRings (rings_of rings.now) }
    requires listed { ArePolygons (rings_of rings.now) polygons.now }
    requires marked { length crowded.now ≡ length polygons.now }
    ensures answer { IfOk result (IsAloneAnswer (rings_of rings.now) polygons.now crowded.now) }
    ensures counted { AddsSweeps 1 (vertices_alone (rings_of rings.now) polygons.now crowded.now
        (length polygons.now)) count.old count.new }
    ensures least { IfOk result (λ found.
        IfNone found (raised (vertices_alone (rings_of rings.now) polygons.now crowded.now
        (length polygons.now)) count.old.probes ≤ count.new.probes)) }
    ensures found { IfOk result (λ found.
        IfSome found (IsCountedFault (rings_of rings.now) count.old count.new)) }
{
    for polygon in 0..polygons.len() {
        if !crowded[polygon] {
            let (exterior, after) = polygons[polygon];
            let found = own_fault_of(alloc, rings, polygon, exterior, after, count)?;
            if found.is_some() {
                return Ok(found);
            }
        }
    }
    Ok(None)
}

/// The fault of the polygon of these rings by itself.
fn own_fault_of(
    alloc: Global,
    rings: &[Vec<Point>],
    polygon: usize,
    exterior: usize,
    after: usize,
    count: &mut Count,
) -> Result<Option<FeatureFault>, AllocError>
    requires drawn { AreProperRings (rings_of rings.now) }
    requires in_order { exterior < after }
    requires within { after ≤ length rings.now }
    ensures answer { IfOk result (IsOwnAnswer (rings_of rings.now) polygon
        (record { exterior = exterior; after = after })) }
    ensures counted { AddsSweeps 1 (vertex_count (slice_range (rings_of rings.now) exterior after))
        count.old count.new }
    ensures least { IfOk result (λ found.
        IfNone found (raised (vertex_count (slice_range (rings_of rings.now) exterior after))
        count.old.probes ≤ count.new.probes)) }
    ensures found { IfOk result (λ found.
        IfSome found (IsCountedFault (rings_of rings.now) count.old count.new)) }
{
    let found = check_polygon(alloc, rings, exterior, after, count)?;
    Ok(own_fault(polygon, exterior, after, found))
}

/// The fault of a polygon by itself, as one of its feature.
fn own_fault(
    polygon: usize,
    exterior: usize,
    after: usize,
    found: Option<PolygonFault>,
) -> Option<FeatureFault>
    ensures { result ≡ option_map (own_fault polygon
        (record { exterior = exterior; after = after })) found }
{
    let cause = match found? {
        PolygonFault::Meeting(meeting) => FeatureCause::Meeting(meeting),
        PolygonFault::Nesting(fault) => FeatureCause::Nesting(fault),
    };
    Some(FeatureFault {
        polygon,
        exterior,
        after,
        cause,
    })
}

/// The fault of the first polygon of two.
fn first_of(one: Option<FeatureFault>, other: Option<FeatureFault>) -> Option<FeatureFault>
    ensures { result ≡ earlier_of one other }
{
    match (one, other) {
        (Some(fault), Some(its)) => Some(if fault.polygon < its.polygon {
            fault
        } else {
            its
        }),
        (Some(fault), None) => Some(fault),
        (None, its) => its,
    }
}
