//! Polygons of a feature with a ring that isn't where it should be, where no edges meet.
ghost use Rattle.std.specs.Prelude.{◌≡◌, ◌<◌, ◌≤◌, ◌↔◌, ℕ, IfNone, IfOk, IfSome, IsTrue, length, slice_get, Some};
ghost use Rattle.mvt_sweep.specs.Work.{AddsWork, vertex_count};
ghost use Rattle.mvt_feature.specs.Feature.{AddsSweeps, IsPlaced};
ghost use Rattle.mvt_feature.specs.Calls.FeatureParts.{AreAllPlaced, IsFirstMisplaced, IsMisplacedBy, listed_at};
ghost use Rattle.mvt_sweep.specs.Meeting.{NoMeeting};
ghost use Rattle.mvt_feature.specs.Calls.Passings.{AreAroundExteriors, ArePassings, HasRightNotes, IsFirstWrongHole};
ghost use Rattle.mvt_rules.specs.Ring.{ArePolygonRings};
ghost use Rattle.mvt_polygon.specs.Polygons.{ArePolygons};
ghost use Rattle.mvt_sweep.specs.Rings.{rings_of, AreProperRings};
ghost use Rattle.mvt_sweep.specs.Swept.{IsNotedClear};
ghost use Rattle.mvt_feature.specs.declared.feature.passing.Passing.TheVariants.{Leaves};

use super::{FeatureCause, FeatureFault};
use crate::feature::passing::{Passing, passings, polygons_around};
use mvt_plane::{Count, Point};
use mvt_polygon::{ApartFault, fault_of_first_vertex, polygon_around};
use mvt_sweep::RingNotes;
use std::alloc::{AllocError, Global};

/// The first of these polygons with a hole that isn't where it should be, or a vertex inside
/// another of them. No edges of their rings meet.
pub(super) fn first_misplaced(
    alloc: Global,
    rings: &[Vec<Point>],
    polygons: &[(usize, usize)],
    notes: &RingNotes,
    count: &mut Count,
) -> Result<Option<FeatureFault>, AllocError>
    requires sound { ArePolygonRings (rings_of rings.now) }
    requires drawn { AreProperRings (rings_of rings.now) }
    requires listed { ArePolygons (rings_of rings.now) polygons.now }
    requires noted { IsNotedClear (rings_of rings.now) notes.now }
    ensures none { IfOk result (λ found. IfNone found (AreAllPlaced (rings_of rings.now))) }
    ensures first { IfOk result (λ found. IfSome found (IsFirstMisplaced (rings_of rings.now))) }
    ensures counted { AddsSweeps 1 (vertex_count (rings_of rings.now)) count.old count.new }
    ensures unswept { IfOk result (λ found.
        IfNone found (AddsSweeps 0 (vertex_count (rings_of rings.now)) count.old count.new)) }
{
    if are_placed(polygons, notes) {
        return Ok(None);
    }
    let passings = passings(alloc, rings, polygons, count)?;
    let around = polygons_around(alloc, notes, &passings)?;
    for polygon in 0..polygons.len() {
        if let Some(cause) = cause_of(rings, polygons, polygon, &passings, &around, count) {
            let (exterior, after) = polygons[polygon];
            return Ok(Some(FeatureFault {
                polygon,
                exterior,
                after,
                cause,
            }));
        }
    }
    Ok(None)
}

/// Whether each ring of these polygons is where it should be.
fn are_placed(polygons: &[(usize, usize)], notes: &RingNotes) -> bool
    requires { (polygon : ℕ) → polygon < length polygons.now
        → ((listed_at polygons.now polygon).exterior < length notes.now.around.items)
        × ((listed_at polygons.now polygon).after ≤ length notes.now.around.items) }
    ensures { IsTrue result ↔ ((polygon : ℕ) → polygon < length polygons.now
        → HasRightNotes notes.now.around.items (listed_at polygons.now polygon)
        (listed_at polygons.now polygon).after) }
{
    for polygon in 0..polygons.len() {
        let (exterior, after) = polygons[polygon];
        if !is_placed(notes, exterior, after) {
            return false;
        }
    }
    true
}

/// Whether an even number of rings are around the exterior of a polygon, and the exterior is
/// directly around each hole.
fn is_placed(notes: &RingNotes, exterior: usize, after: usize) -> bool
    requires there { exterior < length notes.now.around.items }
    requires within { after ≤ length notes.now.around.items }
    ensures { IsTrue result ↔ HasRightNotes notes.now.around.items
        (record { exterior = exterior; after = after }) after }
{
    if notes.is_odd(exterior) {
        return false;
    }
    for hole in exterior + 1..after {
        if notes.nearest(hole) != Some(exterior) {
            return false;
        }
    }
    true
}

/// What is wrong with the place of a polygon.
fn cause_of(
    rings: &[Vec<Point>],
    polygons: &[(usize, usize)],
    polygon: usize,
    passings: &[Passing],
    around: &[usize],
    count: &mut Count,
) -> Option<FeatureCause>
    requires drawn { AreProperRings (rings_of rings.now) }
    requires listed { ArePolygons (rings_of rings.now) polygons.now }
    requires clear { NoMeeting (rings_of rings.now) }
    requires there { polygon < length polygons.now }
    requires size { length passings.now ≡ length rings.now }
    requires passed { ArePassings (rings_of rings.now) passings.now }
    requires counted { AreAroundExteriors (rings_of rings.now) around.now }
    ensures none { IfNone result (IsPlaced (rings_of rings.now) polygon
        (listed_at polygons.now polygon)) }
    ensures some { IfSome result (IsMisplacedBy (rings_of rings.now) polygon
        (listed_at polygons.now polygon)) }
    ensures counted { AddsWork 0 (vertex_count (rings_of rings.now)) 0 count.old count.new }
    ensures uncounted { IfNone result (count.new ≡ count.old) }
{
    let (exterior, after) = polygons[polygon];
    if let Some(hole) = first_wrong_hole(passings, exterior, after) {
        let own = &rings[exterior..after];
        let fault = fault_of_first_vertex(own, hole - exterior, rings[hole][0], count)?;
        return Some(FeatureCause::Nesting(fault.in_feature(exterior)));
    }
    if around[exterior] == 0 {
        return None;
    }
    let other = polygon_around(rings, polygons, polygon, rings[exterior][0])?;
    Some(FeatureCause::Apart(ApartFault { vertex: 0, other }))
}

/// The first hole of a polygon that hasn't the exterior, and no other hole, around it.
fn first_wrong_hole(passings: &[Passing], exterior: usize, after: usize) -> Option<usize>
    requires further { exterior < after }
    requires within { after ≤ length passings.now }
    ensures none { IfNone result ((hole : ℕ) → exterior < hole → hole < after
        → slice_get passings.now hole ≡ Some Leaves) }
    ensures some { IfSome result (IsFirstWrongHole passings.now exterior after) }
{
    for hole in exterior + 1..after {
        if passings[hole] != Passing::Leaves {
            return Some(hole);
        }
    }
    None
}
