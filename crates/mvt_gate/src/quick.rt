//! The verdict whose work is bounded also where polygons of a feature cross.
ghost use Rattle.std.specs.Prelude.{◌≡◌, ◌↔◌, IfOk, None, OnOk};
ghost use Rattle.mvt_rules.specs.Shows.{ShowsBy};
ghost use Rattle.mvt_rules.specs.Valid.{ValidBy};
ghost use Rattle.mvt_fault.specs.declared.fault.Fault.{Fault};
ghost use Rattle.mvt_fault.specs.declared.profile.Profile.TheVariants as profiles;
ghost use Rattle.mvt_gate.specs.Verdict.{IsQuickVerdictBy, IsVerdictFor, verdict_of};
ghost use Rattle.mvt_gate.specs.declared.verdict.Verdict.{Verdict};

use crate::first_walk::{FirstWalk, first_walk};
use crate::geometry::QuickGeometry;
use crate::verdict::{Verdict, find_fault, verdict_of};
use mvt_fault::{Fault, Profile};
use mvt_tile::{polygon_fault, rule_fault_after};
use std::alloc::{AllocError, Global};

/// Which faults are searched for.
#[derive(Clone, Copy, Debug, PartialEq, Eq)]
pub enum Search {
    /// All, so that the first one is that of least place. By the profile `Profile::Feature` that may
    /// take the vertices of a feature squared, where its edges meet.
    Least,
    /// The first one too, but that by the profile `Profile::Feature` any meeting of edges may be named
    /// in place of it. So none has to be searched for before that.
    Quick,
}

/// The same as `judge_with`, with bounded work by both profiles: n log n, whatever the tile. It says
/// Yes exactly where `judge_with` does. Otherwise its fault is true of the bytes, and no true fault is
/// of an earlier layer or feature; it is that of `judge_with` by the profile `Profile::Polygon`, and
/// where no edges of its feature's polygons meet wrongly. In a feature where they do, any meeting may
/// be named in place of its first fault (`specs/Quick.antt`).
///
/// The only error is that memory was refused, and so it is answered for a feature of 2^32 vertices or
/// more: such a tile has more than 8.5 GB.
pub fn judge_quickly(alloc: Global, profile: Profile, bytes: &[u8]) -> Result<Verdict, AllocError>
    ensures verdict { IfOk result (IsQuickVerdictBy profile bytes.now) }
    ensures yes_exactly_where_valid { IfOk result (λ verdict. (verdict ≡ Verdict.Yes)
        ↔ ValidBy profile bytes.now) }
    ensures invalid { IfOk result (λ verdict. ¬ ValidBy profile bytes.now
        → (fault : Fault) × (verdict ≡ Verdict.No fault) × ShowsBy profile bytes.now fault) }
{
    let mut found = None;
    find_quickly(alloc, profile, bytes, &mut found)?;
    Ok(verdict_of(found))
}

/// The verdict of either search.
pub fn judge_for(
    alloc: Global,
    search: Search,
    profile: Profile,
    bytes: &[u8],
) -> Result<Verdict, AllocError>
    ensures verdict { IfOk result (IsVerdictFor search profile bytes.now) }
    ensures yes_exactly_where_valid { IfOk result (λ verdict. (verdict ≡ Verdict.Yes)
        ↔ ValidBy profile bytes.now) }
{
    let mut found = None;
    fault_for(alloc, search, profile, bytes, &mut found)?;
    Ok(verdict_of(found))
}

/// The same for a caller who has room for a fault: the one that the verdict names is stored in `found`,
/// which is None before, and stays so where the bytes are a valid tile. The only error is that memory
/// was refused; what `found` holds then means nothing.
pub fn fault_for(
    alloc: Global,
    search: Search,
    profile: Profile,
    bytes: &[u8],
    found: &mut Option<Fault>,
) -> Result<(), AllocError>
    requires { found.old ≡ None }
    ensures verdict { OnOk result (IsVerdictFor search profile bytes.now (verdict_of found.new)) }
    ensures none_exactly_where_valid { OnOk result ((found.new ≡ None)
        ↔ ValidBy profile bytes.now) }
{
    match search {
        Search::Least => find_fault(alloc, profile, bytes, found),
        Search::Quick => find_quickly(alloc, profile, bytes, found),
    }
}

/// The same for the quick search.
fn find_quickly(
    alloc: Global,
    profile: Profile,
    bytes: &[u8],
    found: &mut Option<Fault>,
) -> Result<(), AllocError>
    requires { found.old ≡ None }
    ensures { OnOk result (IsQuickVerdictBy profile bytes.now (verdict_of found.new)) }
{
    match profile {
        Profile::Polygon => find_fault(alloc, profile, bytes, found),
        Profile::Feature => find_in_features(alloc, bytes, found),
    }
}

/// The same where the polygons of a feature are kept apart.
fn find_in_features(
    alloc: Global,
    bytes: &[u8],
    found: &mut Option<Fault>,
) -> Result<(), AllocError>
    requires { found.old ≡ None }
    ensures { OnOk result (IsQuickVerdictBy profiles.Feature bytes.now (verdict_of found.new)) }
{
    match first_walk(alloc, bytes, found)? {
        FirstWalk::Valid => Ok(()),
        FirstWalk::ButPolygons => {
            polygon_fault(alloc, bytes, &mut QuickGeometry::new(alloc), found)
        }
        FirstWalk::Faulty => Ok(()),
        FirstWalk::Whole(seen) => {
            rule_fault_after(alloc, bytes, seen, &mut QuickGeometry::new(alloc), found)
        }
    }
}
