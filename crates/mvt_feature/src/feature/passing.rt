//! What the number of polygons around becomes within each ring of a feature.
ghost use Rattle.std.specs.Prelude.{◌≡◌, ◌+◌, ◌<◌, ◌≤◌, ℕ, IfOk, length, slice_get, Some};
ghost use Rattle.mvt_sweep.specs.SweepWork.{AddsSweep};
ghost use Rattle.mvt_sweep.specs.Work.{vertex_count};
ghost use Rattle.mvt_sweep.specs.Meeting.{NoMeeting};
ghost use Rattle.mvt_rules.specs.Ring.{ArePolygonRings};
ghost use Rattle.mvt_polygon.specs.Nesting.{one_polygon};
ghost use Rattle.mvt_feature.specs.Calls.Passings.{AreAdded, AreCounts, AreInwards, ArePassings, IsNextCount, IsPassing, passing_by, vertices_of_several};
ghost use Rattle.mvt_polygon.specs.Polygons.{ArePolygons};
ghost use Rattle.mvt_sweep.specs.Rings.{rings_of, AreProperRings};
ghost use Rattle.mvt_sweep.specs.RingsAround.{nearest_at};
ghost use Rattle.mvt_status.specs.Counts.{raised};

use mvt_plane::{Count, Point};
use mvt_sweep::{RingNotes, Swept, sweep_rings};
use std::alloc::{AllocError, Global};

/// What the number of polygons around becomes where a ring is passed inwards, by the rings of its
/// own polygon around it.
#[derive(Clone, Copy, PartialEq, Eq)]
pub(super) enum Passing {
    /// One polygon more: the ring is an exterior, and no hole of its polygon is around it.
    Enters,
    /// One polygon fewer: the ring is a hole, with the exterior and no other hole of its polygon
    /// around it.
    Leaves,
    /// As many: a hole of its polygon is around the ring, or it is a hole without its exterior
    /// around it.
    Neither,
}

/// What each ring of these polygons is. No edges of their rings meet. Each polygon of more than one
/// ring is swept over by itself, so as many probes as it has vertices are counted at least.
pub(super) fn passings(
    alloc: Global,
    rings: &[Vec<Point>],
    polygons: &[(usize, usize)],
    count: &mut Count,
) -> Result<Vec<Passing>, AllocError>
    requires sound { ArePolygonRings (rings_of rings.now) }
    requires drawn { AreProperRings (rings_of rings.now) }
    requires listed { ArePolygons (rings_of rings.now) polygons.now }
    requires clear { NoMeeting (rings_of rings.now) }
    ensures size { IfOk result (λ passings. length passings.items ≡ length rings.now) }
    ensures each { IfOk result (λ passings. ArePassings (rings_of rings.now) passings.items) }
    ensures counted { AddsSweep 2 (vertex_count (rings_of rings.now)) count.old count.new }
    ensures least { IfOk result (λ _. raised (vertices_of_several (rings_of rings.now) polygons.now
        (length polygons.now)) count.old.probes ≤ count.new.probes) }
{
    let mut passings = Vec::new(alloc);
    for polygon in 0..polygons.len() {
        let (exterior, after) = polygons[polygon];
        add_passings(alloc, &rings[exterior..after], &mut passings, count)?;
    }
    Ok(passings)
}

/// Adds what each ring of one polygon is.
fn add_passings(
    alloc: Global,
    rings: &[Vec<Point>],
    passings: &mut Vec<Passing>,
    count: &mut Count,
) -> Result<(), AllocError>
    requires some { 0 < length rings.now }
    requires drawn { AreProperRings (rings_of rings.now) }
    requires clear { NoMeeting (rings_of rings.now) }
    ensures added { IfOk result (λ _.
        AreAdded (length rings.now) (IsPassing (rings_of rings.now)
        (one_polygon (rings_of rings.now))) passings.old.items passings.new.items) }
    ensures counted { AddsSweep 2 (vertex_count (rings_of rings.now)) count.old count.new }
    ensures least { IfOk result (λ _. 1 < length rings.now
        → raised (vertex_count (rings_of rings.now)) count.old.probes ≤ count.new.probes) }
{
    if rings.len() == 1 {
        passings.push(Passing::Enters)?;
        return Ok(());
    }
    match sweep_rings(alloc, rings, count)? {
        Swept::Clear(notes) => push_passings(&notes, rings.len(), passings),
        Swept::Meets(_) => unreachable!(),
    }
}

/// Adds what so many rings are, by notes of them.
fn push_passings(
    notes: &RingNotes,
    rings: usize,
    passings: &mut Vec<Passing>,
) -> Result<(), AllocError>
    requires { rings ≤ length notes.now.around.items }
    ensures { let notes = notes.now.around.items in IfOk result (λ _.
        AreAdded rings (λ ring passing. passing
        ≡ passing_by (nearest_at notes 0) ring (nearest_at notes ring)) passings.old.items
        passings.new.items) }
{
    for ring in 0..rings {
        passings.push(passing_of(notes, ring))?;
    }
    Ok(())
}

/// What a ring of a polygon is, by what is around it and around the exterior.
fn passing_of(notes: &RingNotes, ring: usize) -> Passing
    requires { ring < length notes.now.around.items }
    ensures { let notes = notes.now.around.items in result
        ≡ passing_by (nearest_at notes 0) ring (nearest_at notes ring) }
{
    if notes.nearest(0).is_some() {
        Passing::Neither
    } else if ring == 0 {
        Passing::Enters
    } else if notes.nearest(ring) == Some(0) {
        Passing::Leaves
    } else {
        Passing::Neither
    }
}

/// How many polygons each ring is inside.
pub(super) fn polygons_around(
    alloc: Global,
    notes: &RingNotes,
    passings: &[Passing],
) -> Result<Vec<usize>, AllocError>
    requires inwards { AreInwards (length passings.now) notes.now.around.items
        notes.now.come_to.items }
    requires some { (count_of : ℕ → ℕ) × AreCounts notes.now.around.items passings.now count_of }
    ensures size { IfOk result (λ around. length around.items ≡ length passings.now) }
    ensures counts { (count_of : ℕ → ℕ) → AreCounts notes.now.around.items passings.now count_of
        → IfOk result (λ around. (ring : ℕ) → ring < length passings.now
        → slice_get around.items ring ≡ Some (count_of ring)) }
{
    let mut around = Vec::with_capacity(alloc, passings.len())?;
    for _ring in 0..passings.len() {
        around.push(0_usize)?;
    }
    // (each ring comes after the one directly around it)
    let rings = notes.come_to();
    for at in 0..rings.len() {
        let ring = rings[at] as usize;
        if let Some(nearest) = notes.nearest(ring) {
            around[ring] = around_within(around[nearest], passings[nearest]);
        }
    }
    Ok(around)
}

/// How many polygons are around what lies directly in a ring that so many are around.
fn around_within(around: usize, passing: Passing) -> usize
    requires { (inner : ℕ) × (inner < usize.MAX + 1) × IsNextCount passing around inner }
    ensures { IsNextCount passing around result }
{
    match passing {
        Passing::Enters => around + 1,
        Passing::Leaves => around - 1,
        Passing::Neither => around,
    }
}
