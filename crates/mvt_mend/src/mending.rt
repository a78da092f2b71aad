//! From the rings of a feature to rings that keep a profile.
ghost use Rattle.std.specs.Prelude.{◌≡◌, ◌≤◌, IfOk, IfSome, IsTrue};
ghost use Rattle.mvt_fault.specs.declared.profile.Profile.TheVariants.{Polygon};
ghost use Rattle.mvt_mend.specs.Calls.Judged.{AreJudged};
ghost use Rattle.mvt_mend.specs.Kept.{AreKept, BeginWithExterior};
ghost use Rattle.mvt_mend.specs.Near.{AreNear};
ghost use Rattle.mvt_sweep.specs.Rings.{rings_of};

mod arranged;
mod drafts;
mod filled;
mod old;
mod proposal;
mod segments;
mod starts;

use crate::kept::{Judged, are_kept, begin_with_hole, judge};
use crate::near::are_near;
use crate::near::edges::OldEdges;
use mvt_fault::Profile;
use mvt_plane::Point;
use mvt_segments::Work;
use mvt_sweep::Meeting;
use old::Old;
use proposal::{Proposal, propose};
use std::alloc::{AllocError, Global};

/// The work that each feature, ring and vertex takes anyway: for reading, judging, sorting, sweeps and
/// memory. That of a step of a search is 1.
const FEATURE_WORK: u64 = 300;

const RING_WORK: u64 = 100;

const VERTEX_WORK: u64 = 100;

/// Rings in place of those of a feature, and what was done.
#[derive(Drop)]
pub struct MendedRings {
    /// The rings, of each polygon the exterior first.
    pub rings: Vec<Vec<Point>>,
    /// How many crossings of edges were rounded to a position.
    pub crossings: u64,
    /// How many corners were cut.
    pub cuts: u64,
}

/// Rings in place of these, which are meant to keep the profile, or None where none were found
/// within the work, or where nothing has an area. Each of their vertices is within two units of an
/// edge of the rings that were given. By the profile `polygon` the polygons that keep all rules are
/// still there, in their order, unless the first ring that has an area is a hole. `known` are edges
/// that may meet wrongly, if such are known: that spares a search, and changes nothing else. The only
/// error is that memory was refused.
pub fn mend_rings(
    alloc: Global,
    profile: Profile,
    rings: &[Vec<Point>],
    known: Option<&Meeting>,
    work: &mut Work,
) -> Result<Option<MendedRings>, AllocError>
    ensures near { IfOk result (λ found. IfSome found (λ mended.
        AreNear (rings_of rings.now) (rings_of mended.rings.items))) }
    ensures kept { IfOk result (λ found. IfSome found (λ mended.
        profile ≡ Polygon → BeginWithExterior (rings_of rings.now)
        → AreKept (rings_of rings.now) (rings_of mended.rings.items))) }
    ensures no_more { work.new ≤ work.old }
{
    if !work.spend(least_work(rings)) {
        return Ok(None);
    }
    let judged = judge(alloc, rings, known)?;
    let edges = OldEdges::of(alloc, rings)?;
    let old = Old {
        rings,
        edges: &edges,
    };
    let Some(proposal) = propose_within(alloc, profile, old, &judged, work)? else {
        return Ok(None);
    };
    let new = &proposal.outlines.rings;
    if new.is_empty() {
        return Ok(None);
    }
    if !are_near(rings, &edges, &proposal.outlines.witnesses, new, work) {
        return Ok(None);
    }
    if !keeps_right(alloc, profile, rings, &judged, new)? {
        return Ok(None);
    }
    Ok(Some(proposal.mended()))
}

/// The work that rings take anyway.
fn least_work(rings: &[Vec<Point>]) -> u64 {
    let mut least = FEATURE_WORK;
    for ring in rings {
        let its = VERTEX_WORK.saturating_mul(ring.len() as u64);
        least = least.saturating_add(its.saturating_add(RING_WORK));
    }
    least
}

/// What `propose` answers. There is no more work left afterwards than before.
fn propose_within(
    alloc: Global,
    profile: Profile,
    old: Old,
    judged: &Judged,
    work: &mut Work,
) -> Result<Option<Proposal>, AllocError>
    ensures { work.new ≤ work.old }
{
    let mut own = Work::new(work.left());
    let found = propose(alloc, profile, old, judged, &mut own);
    work.lower(own.left());
    found
}

/// Whether the polygons that are right are still there, where the profile asks for that and areas
/// tell which rings are exteriors.
fn keeps_right(
    alloc: Global,
    profile: Profile,
    old: &[Vec<Point>],
    judged: &Judged,
    new: &[Vec<Point>],
) -> Result<bool, AllocError>
    requires { AreJudged (rings_of old.now) judged.now.polygons.items judged.now.right.items }
    ensures { IfOk result (λ keeps. IsTrue keeps → profile ≡ Polygon
        → BeginWithExterior (rings_of old.now) → AreKept (rings_of old.now) (rings_of new.now)) }
{
    if profile == Profile::Feature {
        return Ok(true);
    }
    // (mostly the first ring is an exterior, and no area has to be looked at once more)
    if !judged.begin_at_once() && begin_with_hole(old) {
        return Ok(true);
    }
    are_kept(alloc, old, judged, new)
}
