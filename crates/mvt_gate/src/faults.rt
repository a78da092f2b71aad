//! All faults of a tile: the first one of each layer and of each feature that has any.
ghost use Rattle.std.specs.Prelude.{◌≡◌, ◌↔◌, ℕ, [], ◌∷◌, IfOk, Some, slice_get};
ghost use Rattle.mvt_rules.specs.Shows.{ShowsBy};
ghost use Rattle.mvt_rules.specs.Valid.{ValidBy};
ghost use Rattle.mvt_fault.specs.Place.{IsLeast, place_of};
ghost use Rattle.mvt_rules.specs.Parts.TrueFaults.{IsWireFault};
ghost use Rattle.mvt_fault.specs.declared.fault.Fault.{Fault};
ghost use Rattle.mvt_tile.specs.RuleFaults.{IsAfterTags};
ghost use Rattle.mvt_rules.specs.Tile.{FeatureRecord};
ghost use Rattle.mvt_gate.specs.Calls.Faults.{AreFoundBy};
ghost use Rattle.mvt_gate.specs.FaultList.{AreFaultsFor};
ghost use Rattle.mvt_gate.specs.Verdict.{IsQuickVerdictBy, IsVerdictFor};
ghost use Rattle.mvt_gate.specs.declared.verdict.Verdict.{Verdict};

use crate::geometry::{FeatureGeometry, PolygonGeometry, QuickGeometry};
use crate::quick::Search;
use mvt_fault::{Fault, Profile};
use mvt_tile::{FeatureRule, rule_faults, wire_fault};
use std::alloc::{AllocError, Global};

/// The faults of the bytes by a profile, in the order of places: of each layer of another version or
/// of an earlier layer's name the first one, and of each feature that has a fault of its tags, its
/// commands, its rings or its polygons the first one. So the first of the list is that of
/// `judge_with`, and the list is empty exactly where the bytes are a valid tile. Each is true of the
/// bytes: `confirm_with` accepts it. Bytes with a wire fault are no tile, and have that one alone.
///
/// The tile is walked for wire faults, and then for all others, with the work of a verdict on each
/// feature, and its memory grows with the faults. The only error is that memory was refused, and so
/// it is answered for a feature of 2^32 vertices or more: such a tile has more than 8.5 GB.
pub fn faults_with(alloc: Global, profile: Profile, bytes: &[u8]) -> Result<Vec<Fault>, AllocError>
    ensures list { IfOk result (λ faults.
        AreFaultsFor Search.Least profile bytes.now faults.items) }
    ensures empty_exactly_where_valid { IfOk result (λ faults. (faults.items ≡ [])
        ↔ ValidBy profile bytes.now) }
    ensures each_is_true { IfOk result (λ faults. (at : ℕ) (fault : Fault)
        → slice_get faults.items at ≡ Some fault → ShowsBy profile bytes.now fault) }
    ensures first_is_least { IfOk result (λ faults. (fault : Fault)
        → slice_get faults.items 0 ≡ Some fault → IsLeast (ShowsBy profile bytes.now) fault) }
    ensures wire_fault_alone { IfOk result (λ faults. (at : ℕ) (fault : Fault)
        → slice_get faults.items at ≡ Some fault → IsWireFault bytes.now fault
        → faults.items ≡ fault ∷ []) }
{
    faults_for(alloc, Search::Least, profile, bytes)
}

/// The same list in the time of `judge_quickly`, whose fault is the first of the list: of a feature
/// where edges meet, any meeting may stand in place of its first fault. The same layers and features
/// have a fault in it.
pub fn faults_quickly(
    alloc: Global,
    profile: Profile,
    bytes: &[u8],
) -> Result<Vec<Fault>, AllocError>
    ensures list { IfOk result (λ faults.
        AreFaultsFor Search.Quick profile bytes.now faults.items) }
    ensures empty_exactly_where_valid { IfOk result (λ faults. (faults.items ≡ [])
        ↔ ValidBy profile bytes.now) }
    ensures each_is_true { IfOk result (λ faults. (at : ℕ) (fault : Fault)
        → slice_get faults.items at ≡ Some fault → ShowsBy profile bytes.now fault) }
    ensures first_is_quick { IfOk result (λ faults. (fault : Fault)
        → slice_get faults.items 0 ≡ Some fault
        → IsQuickVerdictBy profile bytes.now (Verdict.No fault)) }
    ensures wire_fault_alone { IfOk result (λ faults. (at : ℕ) (fault : Fault)
        → slice_get faults.items at ≡ Some fault → IsWireFault bytes.now fault
        → faults.items ≡ fault ∷ []) }
{
    faults_for(alloc, Search::Quick, profile, bytes)
}

/// The list of either search.
pub fn faults_for(
    alloc: Global,
    search: Search,
    profile: Profile,
    bytes: &[u8],
) -> Result<Vec<Fault>, AllocError>
    ensures list { IfOk result (λ faults.
        AreFaultsFor search profile bytes.now faults.items) }
    ensures empty_exactly_where_valid { IfOk result (λ faults. (faults.items ≡ [])
        ↔ ValidBy profile bytes.now) }
    ensures each_is_true { IfOk result (λ faults. (at : ℕ) (fault : Fault)
        → slice_get faults.items at ≡ Some fault → ShowsBy profile bytes.now fault) }
    ensures first_is_verdict { IfOk result (λ faults. (fault : Fault)
        → slice_get faults.items 0 ≡ Some fault
        → IsVerdictFor search profile bytes.now (Verdict.No fault)) }
    ensures wire_fault_alone { IfOk result (λ faults. (at : ℕ) (fault : Fault)
        → slice_get faults.items at ≡ Some fault → IsWireFault bytes.now fault
        → faults.items ≡ fault ∷ []) }
{
    list_faults(alloc, search, profile, bytes)
}

/// The same list: what else is said of it follows.
fn list_faults(
    alloc: Global,
    search: Search,
    profile: Profile,
    bytes: &[u8],
) -> Result<Vec<Fault>, AllocError>
    ensures { IfOk result (λ faults. AreFaultsFor search profile bytes.now faults.items) }
{
    match profile {
        Profile::Polygon => faults_by(alloc, bytes, &mut PolygonGeometry::new(alloc)),
        Profile::Feature => match search {
            Search::Least => faults_by(alloc, bytes, &mut FeatureGeometry::new(alloc)),
            Search::Quick => faults_by(alloc, bytes, &mut QuickGeometry::new(alloc)),
        },
    }
}

/// The list by a further rule on features: the first wire fault alone, or the first faults of the
/// tile by its rules.
fn faults_by<R: FeatureRule>(
    alloc: Global,
    bytes: &[u8],
    rule: &mut R,
) -> Result<Vec<Fault>, AllocError>
    requires after_tags { (feature_record : FeatureRecord) (layer feature : ℕ) (fault : Fault)
        → R.IsBroken feature_record layer feature fault
        → IsAfterTags layer feature (place_of fault) }
    ensures { IfOk result (λ faults. AreFoundBy R.IsFree R.IsBroken R.IsKept bytes.now faults.items) }
{
    let Some(fault) = wire_fault(bytes) else {
        return rule_faults(alloc, bytes, rule);
    };
    let mut faults = Vec::new(alloc);
    faults.push(fault)?;
    Ok(faults)
}
