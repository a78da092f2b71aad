//! The polygons of a feature before the first one of which an edge meets another one.
ghost use Rattle.std.specs.Prelude.{◌≡◌, ◌+◌, ◌⊎◌, ◌<◌, ◌≤◌, ℕ, IfOk, IfNone, IfSome, Some, length, take};
ghost use Rattle.mvt_plane.specs.Counted.{ticked};
ghost use Rattle.mvt_sweep.specs.Work.{vertex_count};
ghost use Rattle.mvt_feature.specs.Feature.{AddsSweeps};
ghost use Rattle.mvt_feature.specs.Calls.FeatureParts.{AreAllHalves, IsFront, listed_at};
ghost use Rattle.mvt_sweep.specs.Meeting.{IsMeetingOf, NoMeeting};
ghost use Rattle.mvt_rules.specs.Polygon.{IsRingOf};
ghost use Rattle.mvt_rules.specs.Ring.{ArePolygonRings};
ghost use Rattle.mvt_polygon.specs.Polygons.{ArePolygons};
ghost use Rattle.mvt_sweep.specs.Rings.{rings_of, AreProperRings};
ghost use Rattle.mvt_status.specs.Counts.{bits, raised};

use mvt_plane::{Count, Point};
use mvt_sweep::{Meeting, RingNotes, Swept, sweep_rings};
use std::alloc::{AllocError, Global};

/// The polygons before the first one of which an edge meets one of its own, or of the polygons
/// before it, wrongly.
#[derive(Drop)]
pub(super) struct Front {
    /// How many they are.
    pub(super) polygons: usize,
    /// How many rings they have.
    pub(super) rings: usize,
    /// Which rings are around each of their rings.
    pub(super) notes: RingNotes,
    /// The meeting of the polygon after them, if there is one.
    pub(super) meeting: Option<Meeting>,
}

/// Finds these polygons: all, by one sweep, where no edges meet.
pub(super) fn clear_front(
    alloc: Global,
    rings: &[Vec<Point>],
    polygons: &[(usize, usize)],
    count: &mut Count,
) -> Result<Front, AllocError>
    requires sound { ArePolygonRings (rings_of rings.now) }
    requires drawn { AreProperRings (rings_of rings.now) }
    requires listed { ArePolygons (rings_of rings.now) polygons.now }
    ensures front { IfOk result (IsFront (rings_of rings.now) polygons.now) }
    ensures counted { AddsSweeps (bits (length polygons.now) + 1)
        (vertex_count (rings_of rings.now)) count.old count.new }
    ensures apart { NoMeeting (rings_of rings.now)
        → AddsSweeps 1 (vertex_count (rings_of rings.now)) count.old count.new }
    ensures once { IfOk result (λ front.
        IfNone front.meeting (AddsSweeps 1 (vertex_count (rings_of rings.now)) count.old
        count.new)) }
    ensures least { IfOk result (λ front.
        IfNone front.meeting (raised (vertex_count (rings_of rings.now)) count.old.probes
        ≤ count.new.probes)) }
    ensures probed { IfOk result (λ front. raised (vertex_count (take front.rings (rings_of
        rings.now))) count.old.probes ≤ count.new.probes) }
    ensures tested { IfOk result (λ front.
        IfSome front.meeting (λ _. ticked count.old.tests ≤ count.new.tests)) }
{
    match sweep_rings(alloc, rings, count)? {
        Swept::Clear(notes) => Ok(Front {
            polygons: polygons.len(),
            rings: rings.len(),
            notes,
            meeting: None,
        }),
        Swept::Meets(meeting) => front_before(alloc, rings, polygons, meeting, count),
    }
}

/// Finds these polygons where edges meet, by halves: each sweep goes over the rings up to the end
/// of the polygon in the middle of those that are left. For each of these sweeps it counts a probe
/// for each vertex at least where no edges meet, and else a test.
fn front_before(
    alloc: Global,
    rings: &[Vec<Point>],
    polygons: &[(usize, usize)],
    meeting: Meeting,
    count: &mut Count,
) -> Result<Front, AllocError>
    requires sound { ArePolygonRings (rings_of rings.now) }
    requires drawn { AreProperRings (rings_of rings.now) }
    requires listed { ArePolygons (rings_of rings.now) polygons.now }
    requires meets { IsMeetingOf (rings_of rings.now) meeting }
    ensures front { IfOk result (IsFront (rings_of rings.now) polygons.now) }
    ensures met { IfOk result (λ front. IfNone front.meeting ⊥) }
    ensures counted { AddsSweeps (bits (length polygons.now)) (vertex_count (rings_of rings.now))
        count.old count.new }
    ensures probed { IfOk result (λ front. raised (vertex_count (take front.rings (rings_of
        rings.now))) count.old.probes ≤ count.new.probes) }
    ensures tested { IfOk result (λ front. (front.meeting ≡ Some meeting)
        ⊎ (ticked count.old.tests ≤ count.new.tests)) }
    ensures halves { IfOk result (AreAllHalves (rings_of rings.now) polygons.now
        meeting.second_ring count.old count.new) }
{
    let mut front = Front {
        polygons: 0,
        rings: 0,
        notes: RingNotes::of_no_rings(alloc)?,
        meeting: Some(meeting),
    };
    let mut meets = polygon_of(polygons, meeting.second_ring);
    'halves: while front.polygons < meets {
        let middle = front.polygons + (meets - front.polygons) / 2;
        let (_, after) = polygons[middle];
        match sweep_rings(alloc, &rings[..after], count)? {
            Swept::Clear(notes) => {
                front.notes = notes;
                front.polygons = middle + 1;
                front.rings = after;
            }
            Swept::Meets(found) => {
                meets = polygon_of(polygons, found.second_ring);
                front.meeting = Some(found);
            }
        }
    }
    Ok(front)
}

/// The polygon that a ring belongs to.
pub(super) fn polygon_of(polygons: &[(usize, usize)], ring: usize) -> usize
    requires { (polygon : ℕ) × (polygon < length polygons.now)
        × IsRingOf (listed_at polygons.now polygon) ring }
    ensures within { result < length polygons.now }
    ensures of { ring < (listed_at polygons.now result).after }
    ensures first { (polygon : ℕ) → polygon < result
        → (listed_at polygons.now polygon).after ≤ ring }
{
    for polygon in 0..polygons.len() {
        let (_, after) = polygons[polygon];
        if ring < after {
            return polygon;
        }
    }
    unreachable!()
}
