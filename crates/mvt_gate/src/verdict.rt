//! The verdict on bytes: they are a valid tile, or this is their first fault.
ghost use Rattle.std.specs.Prelude.{◌≡◌, IfNone, IfOk, IfSome, None, OnOk};
ghost use Rattle.mvt_rules.specs.Parts.Geometry.{IsFaultOfGeometryBy};
ghost use Rattle.mvt_rules.specs.Shows.{Shows, ShowsBy};
ghost use Rattle.mvt_rules.specs.Valid.{IsValidGeometryBy, Valid, ValidBy};
ghost use Rattle.mvt_fault.specs.Place.{IsLeast};
ghost use Rattle.mvt_fault.specs.declared.fault.Fault.{Fault};
ghost use Rattle.mvt_tile.specs.RuleFaults.{BreaksAnyRule, KeepsButPolygons, KeepsRules};
ghost use Rattle.mvt_tile.specs.Sound.{AreSoundTo};
ghost use Rattle.mvt_rules.specs.Tile.{IsTile, TileRecord};
ghost use Rattle.mvt_gate.specs.Verdict.{IsVerdict, IsVerdictBy, verdict_of};
ghost use Rattle.mvt_gate.specs.declared.verdict.Verdict.{Verdict};

use crate::first_walk::{FirstWalk, first_walk};
use crate::geometry::{FeatureGeometry, PolygonGeometry};
use mvt_fault::{Fault, Profile};
use mvt_tile::{Seen, polygon_fault, rule_fault_after};
use std::alloc::{AllocError, Global};

/// What the gate says of the bytes of a tile.
#[derive(Clone, Copy, Debug, PartialEq, Eq)]
pub enum Verdict {
    /// The bytes are a valid tile: one that keeps every rule that `judge` names, or in the profile
    /// `Profile::Feature` every rule that `judge_with` names.
    Yes,
    /// They are not. Of all faults that are true of them this one comes first, but that a quick
    /// verdict may name a meeting in place of it (`judge_quickly`). All meetings of edges in one
    /// polygon have one place in that order; any of them may be reported.
    No(Fault),
}

/// Whether the bytes, of any content and length, are an uncompressed valid tile: Protocol Buffers
/// messages ("Message Structure") by the schema of the Mapbox Vector Tile Specification 2.1,
/// section 4, whose layers have version 2 and different names (section 4.1), whose tags are pairs
/// of a key and a value of the layer, no key twice in a feature (section 4.4), and whose geometry
/// draws a figure of the feature's type where that is known (section 4.3).
///
/// The rings of a feature are those of polygons (section 4.3.4.4): no ring's last position is its
/// first one, each has an area, and the first one is an exterior, which has positive area. A
/// polygon is an exterior with the holes after it. No two edges of a polygon, of one ring or of
/// two, cross or touch, but that neighbours share their vertex; so its rings may not touch either,
/// not even in one vertex. Each vertex of a hole is inside the exterior, and inside no other hole
/// of its polygon.
///
/// Edges are tested at most three times for each vertex of their polygon, and the other work that
/// is counted grows as n log n with the number n of its vertices, also where it has many holes. The
/// only error is that memory was refused, and so it is answered for a feature of 2^32 vertices or
/// more: such a tile has more than 8.5 GB.
pub fn judge(alloc: Global, bytes: &[u8]) -> Result<Verdict, AllocError>
    ensures verdict { IfOk result (IsVerdict bytes.now) }
    ensures invalid { IfOk result (λ verdict. ¬ Valid bytes.now
        → (fault : Fault) × (verdict ≡ Verdict.No fault) × Shows bytes.now fault) }
{
    judge_with(alloc, Profile::Polygon, bytes)
}

/// The same by a profile. `Profile::Polygon` asks what `judge` asks. `Profile::Feature` also asks
/// that the polygons of a feature are apart: no two edges of all its rings cross or touch, but that
/// neighbours share their vertex; and no vertex of a polygon's exterior is inside another polygon
/// of the feature, which is inside that one's exterior and inside none of its holes. So a polygon
/// may lie in a hole of another.
///
/// In the profile `Profile::Feature` all polygons of a feature are checked together, and where no
/// edges meet wrongly the work grows as n log n with their vertices. Where edges meet, the polygons
/// before the first one with a meeting are held against those from it on, which can take the
/// vertices squared; `judge_quickly` leaves that out.
///
/// The only error is that memory was refused, and so it is answered for a feature of 2^32 vertices or
/// more: such a tile has more than 8.5 GB.
pub fn judge_with(alloc: Global, profile: Profile, bytes: &[u8]) -> Result<Verdict, AllocError>
    ensures verdict { IfOk result (IsVerdictBy profile bytes.now) }
    ensures invalid { IfOk result (λ verdict. ¬ ValidBy profile bytes.now
        → (fault : Fault) × (verdict ≡ Verdict.No fault) × ShowsBy profile bytes.now fault) }
{
    let mut found = None;
    find_fault(alloc, profile, bytes, &mut found)?;
    Ok(verdict_of(found))
}

/// The verdict where this fault was found, or none.
pub(crate) fn verdict_of(found: Option<Fault>) -> Verdict
    ensures { result ≡ verdict_of found }
{
    match found {
        None => Verdict::Yes,
        Some(fault) => Verdict::No(fault),
    }
}

/// Stores the first fault of the bytes by a profile in `found`, which is None before and stays so where
/// they are a valid tile. (A fault is large, so as an answer it would be copied at each call, and its
/// room cleared, for valid tiles too.) The only error is that memory was refused.
pub(crate) fn find_fault(
    alloc: Global,
    profile: Profile,
    bytes: &[u8],
    found: &mut Option<Fault>,
) -> Result<(), AllocError>
    requires { found.old ≡ None }
    ensures { OnOk result (IsVerdictBy profile bytes.now (verdict_of found.new)) }
{
    match first_walk(alloc, bytes, found)? {
        FirstWalk::Valid => Ok(()),
        FirstWalk::ButPolygons => find_polygon_fault(alloc, profile, bytes, found),
        FirstWalk::Faulty => Ok(()),
        FirstWalk::Whole(seen) => find_rule_fault(alloc, profile, bytes, seen, found),
    }
}

/// The same of a tile by its rules and those of the profile. The bytes have no wire fault, and the
/// features that were seen have none but a missing key or value.
fn find_rule_fault(
    alloc: Global,
    profile: Profile,
    bytes: &[u8],
    seen: Seen,
    found: &mut Option<Fault>,
) -> Result<(), AllocError>
    requires nothing { found.old ≡ None }
    requires tile { (tile : TileRecord) × IsTile bytes.now tile }
    requires sound { AreSoundTo (IsFaultOfGeometryBy profile) (IsValidGeometryBy profile) bytes.now seen }
    ensures none { OnOk result (IfNone found.new ((tile : TileRecord) → IsTile bytes.now tile
        → KeepsRules (IsValidGeometryBy profile) tile)) }
    ensures least { OnOk result (IfSome found.new (λ fault. (tile : TileRecord)
        → IsTile bytes.now tile
        → IsLeast (BreaksAnyRule (IsFaultOfGeometryBy profile) tile) fault)) }
{
    match profile {
        Profile::Polygon => {
            rule_fault_after(alloc, bytes, seen, &mut PolygonGeometry::new(alloc), found)
        }
        Profile::Feature => {
            rule_fault_after(alloc, bytes, seen, &mut FeatureGeometry::new(alloc), found)
        }
    }
}

/// The same of a tile that keeps all rules but those on polygons.
fn find_polygon_fault(
    alloc: Global,
    profile: Profile,
    bytes: &[u8],
    found: &mut Option<Fault>,
) -> Result<(), AllocError>
    requires nothing { found.old ≡ None }
    requires tile { (tile : TileRecord) × IsTile bytes.now tile }
    requires others { (tile : TileRecord) → IsTile bytes.now tile
        → KeepsButPolygons (IsFaultOfGeometryBy profile) (IsValidGeometryBy profile) tile }
    ensures none { OnOk result (IfNone found.new ((tile : TileRecord) → IsTile bytes.now tile
        → KeepsRules (IsValidGeometryBy profile) tile)) }
    ensures least { OnOk result (IfSome found.new (λ fault. (tile : TileRecord)
        → IsTile bytes.now tile
        → IsLeast (BreaksAnyRule (IsFaultOfGeometryBy profile) tile) fault)) }
{
    match profile {
        Profile::Polygon => polygon_fault(alloc, bytes, &mut PolygonGeometry::new(alloc), found),
        Profile::Feature => polygon_fault(alloc, bytes, &mut FeatureGeometry::new(alloc), found),
    }
}
