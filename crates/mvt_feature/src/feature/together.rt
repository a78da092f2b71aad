//! The first fault of a feature whose polygons may all meet or lie in each other.
ghost use Rattle.std.specs.Prelude.{◌≡◌, ℕ, ◌+◌, ◌<◌, IfOk, IfSome, length, option_map};
ghost use Rattle.mvt_sweep.specs.Work.{vertex_count};
ghost use Rattle.mvt_feature.specs.Feature.{AddsSweeps, AreAtMost, IsCountedAnswer, IsFeatureAnswer};
ghost use Rattle.mvt_feature.specs.Calls.FeatureParts.{fault_after, until_of};
ghost use Rattle.mvt_sweep.specs.Meeting.{NoMeeting};
ghost use Rattle.mvt_rules.specs.Ring.{ArePolygonRings};
ghost use Rattle.mvt_sweep.specs.Rings.{rings_of, AreProperRings};
ghost use Rattle.mvt_status.specs.Counts.{bits};

use super::{FeatureCause, FeatureFault};
use crate::feature::front::{Front, clear_front};
use crate::feature::later::first_inside_later;
use crate::feature::placed::first_misplaced;
use mvt_plane::{Count, Point};
use mvt_polygon::groups;
use std::alloc::{AllocError, Global};

/// What `check_feature` answers, by sweeps over all rings together.
pub(super) fn check_together(
    alloc: Global,
    rings: &[Vec<Point>],
    count: &mut Count,
) -> Result<Option<FeatureFault>, AllocError>
    requires sound { ArePolygonRings (rings_of rings.now) }
    requires drawn { AreProperRings (rings_of rings.now) }
    ensures answer { IfOk result (IsFeatureAnswer (rings_of rings.now)) }
    ensures counted { (polygons : ℕ) → AreAtMost (rings_of rings.now) polygons
        → AddsSweeps (bits polygons + 2) (vertex_count (rings_of rings.now)) count.old count.new }
    ensures apart { NoMeeting (rings_of rings.now)
        → AddsSweeps 2 (vertex_count (rings_of rings.now)) count.old count.new }
    ensures by_answer { IfOk result (IsCountedAnswer (rings_of rings.now) count.old count.new) }
{
    let polygons = groups(alloc, rings)?;
    let front = clear_front(alloc, rings, &polygons, count)?;
    let front_rings = &rings[..front.rings];
    let front_polygons = &polygons[..front.polygons];
    let misplaced = first_misplaced(alloc, front_rings, front_polygons, &front.notes, count)?;
    let until = placed_up_to(&misplaced, front.polygons);
    let inside = first_inside_later(alloc, rings, &polygons, front.polygons, until)?;
    Ok(inside.or(misplaced).or(following_fault(&polygons, &front)))
}

/// Up to which polygon none is misplaced, of so many.
fn placed_up_to(misplaced: &Option<FeatureFault>, polygons: usize) -> usize
    ensures { result ≡ until_of polygons misplaced.now }
{
    match misplaced {
        Some(found) => found.polygon,
        None => polygons,
    }
}

/// The fault of the polygon after the front, where its edges meet.
fn following_fault(polygons: &[(usize, usize)], front: &Front) -> Option<FeatureFault>
    requires { IfSome front.now.meeting (λ _. front.now.polygons < length polygons.now) }
    ensures { result ≡ option_map (fault_after polygons.now front.now.polygons) front.now.meeting }
{
    let meeting = front.meeting?;
    let (exterior, after) = polygons[front.polygons];
    Some(FeatureFault {
        polygon: front.polygons,
        exterior,
        after,
        cause: FeatureCause::Meeting(meeting),
    })
}
