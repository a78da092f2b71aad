//! A tile that is mended, or the fault for which it isn't.
ghost use Rattle.std.specs.Prelude.{◌≡◌, ◌≢◌, ◌≤◌, length, [], IfOk, IfNone, IfSome, IsFalse, IsTrue};
ghost use Rattle.mvt_fault.specs.declared.profile.Profile.TheVariants.{Polygon};
ghost use Rattle.mvt_gate.specs.FaultList.{AreFaultsFor};
ghost use Rattle.mvt_gate.specs.declared.quick.Search.TheVariants.{Least};
ghost use Rattle.mvt_plane.specs.Commands.Figure.{polygon};
ghost use Rattle.mvt_plane.specs.FeatureGeometry.{type_number};
ghost use Rattle.mvt_tile.specs.FeatureBytes.{Encodes};
ghost use Rattle.mvt_rules.specs.Tile.{FeatureRecord};
ghost use Rattle.mvt_mender.specs.Calls.Features.{AreAllFound, ArePlacesOf, AreOfPolygons, IsFirstOther};
ghost use Rattle.mvt_mender.specs.Mending.{IsMendingBy};

use crate::changes::{ChangesFound, find_changes};
use crate::features::features_at;
use crate::measures::Measures;
use crate::mendable::places_of;
use crate::place::FeaturePlace;
use mvt_fault::{Fault, Profile};
use mvt_gate::faults_with;
use mvt_mend::Work;
use mvt_splice::splice;
use mvt_tile::{FeatureBytes, Kind};
use std::alloc::{AllocError, Global};

/// How much work mending a tile may take, whatever its size: tests of pairs of edges, splits, corners
/// and steps of searches, and what features, rings and vertices take anyway. A step takes up to 15
/// nanoseconds.
const MOST_WORK: u64 = 600_000_000;

/// What mending makes of a tile.
#[derive(Debug, PartialEq, Eq, Drop)]
pub enum Mending {
    /// The bytes are a valid tile, and nothing is to be mended.
    Valid,
    /// They are a tile that isn't, and this is a valid one in its place.
    Mended(MendedTile),
    /// They can't be mended, for this fault, which is true of them.
    Refused(Fault),
}

/// A valid tile in place of one that isn't.
#[derive(Debug, PartialEq, Eq, Drop)]
pub struct MendedTile {
    /// Its bytes.
    pub bytes: Vec<u8>,
    /// What became of each feature that had a fault, in the order of the features.
    pub changes: Vec<FeatureChange>,
}

/// What became of a feature that had a fault.
#[derive(Clone, Copy, Debug, PartialEq, Eq)]
pub struct FeatureChange {
    /// The ordinal of its layer in the tile, counted from 0.
    pub layer: usize,
    /// Its own ordinal in the layer before any change, counted from 0.
    pub feature: usize,
    /// What became of it.
    pub what: WhatChanged,
}

/// Whether a feature was mended.
#[derive(Clone, Copy, Debug, PartialEq, Eq)]
pub enum WhatChanged {
    /// It has other rings.
    Mended(MendedFeature),
    /// It couldn't be mended, and was left out.
    Dropped,
}

/// What became of the rings of a feature.
#[derive(Clone, Copy, Debug, PartialEq, Eq)]
pub struct MendedFeature {
    /// What the old rings measure.
    pub before: Measures,
    /// What the new rings measure.
    pub after: Measures,
    /// How many crossings of edges were rounded to a position.
    pub crossings: u64,
    /// How many corners were cut.
    pub cuts: u64,
}

/// Mends a tile by the profile that checks each polygon by itself: `mend_with` has the rules.
pub fn mend(alloc: Global, drop_unmended: bool, bytes: &[u8]) -> Result<Mending, AllocError>
    ensures { IfOk result (IsMendingBy Polygon drop_unmended bytes.now) }
{
    mend_with(alloc, Profile::Polygon, drop_unmended, bytes)
}

/// Mends a tile by a profile: valid by `judge_with` is what comes out, and what went in stays byte
/// for byte but for the features that are told.
///
/// What is mended are features of polygons whose rings break the rules, with a fault of codes 501 to
/// 507, or 402 or 406 (Mapbox Vector Tile Specification 2.1, sections 4.3 and 4.3.4.4). Each vertex
/// of a mended feature is within 2 units of one of its old edges, along both axes. By the profile
/// `Profile::Polygon` its polygons that broke no rule are still there, in their order, unless the
/// first ring that has an area is a hole. Features that can't be mended are left out where
/// `drop_unmended` is true, so a tile with no other faults always comes out valid.
///
/// `Refused` has the least of the tile's other faults, for which nothing is mended; or else, where
/// `drop_unmended` is false, the fault of a feature that couldn't be mended. One limit on the work
/// is for all features of the tile. The only error is that memory was refused.
pub fn mend_with(
    alloc: Global,
    profile: Profile,
    drop_unmended: bool,
    bytes: &[u8],
) -> Result<Mending, AllocError>
    ensures { IfOk result (IsMendingBy profile drop_unmended bytes.now) }
{
    let faults = faults_with(alloc, profile, bytes)?;
    if faults.is_empty() {
        return Ok(Mending::Valid);
    }
    let places = places_of(alloc, &faults)?;
    mend_places(alloc, profile, drop_unmended, bytes, &faults, &places)
}

/// Mends a tile that isn't valid. The places are those of its first faults.
fn mend_places(
    alloc: Global,
    profile: Profile,
    drop_unmended: bool,
    bytes: &[u8],
    faults: &[Fault],
    places: &[FeaturePlace],
) -> Result<Mending, AllocError>
    requires list { AreFaultsFor Least profile bytes.now faults.now }
    requires some { faults.now ≢ [] }
    requires places { ArePlacesOf faults.now places.now }
    ensures { IfOk result (IsMendingBy profile drop_unmended bytes.now) }
{
    if places.is_empty() {
        return Ok(Mending::Refused(faults[0]));
    }
    let features = features_at(alloc, bytes, places)?;
    mend_found(
        alloc,
        profile,
        drop_unmended,
        bytes,
        faults,
        places,
        &features,
    )
}

/// Mends a tile that isn't valid. The features are those of its first faults.
fn mend_found(
    alloc: Global,
    profile: Profile,
    drop_unmended: bool,
    bytes: &[u8],
    faults: &[Fault],
    places: &[FeaturePlace],
    features: &[FeatureBytes<'_>],
) -> Result<Mending, AllocError>
    requires list { AreFaultsFor Least profile bytes.now faults.now }
    requires some { faults.now ≢ [] }
    requires places { ArePlacesOf faults.now places.now }
    requires found { AreAllFound bytes.now places.now features.now }
    ensures { IfOk result (IsMendingBy profile drop_unmended bytes.now) }
{
    match other_fault(faults, features) {
        Some(fault) => Ok(Mending::Refused(fault)),
        None => mend_features(
            alloc,
            profile,
            drop_unmended,
            bytes,
            faults,
            places,
            features,
        ),
    }
}

/// The first fault that isn't mended: of a feature of another type than that of polygons, or else
/// the first after those of the features.
fn other_fault(faults: &[Fault], features: &[FeatureBytes<'_>]) -> Option<Fault>
    requires { length features.now ≤ length faults.now }
    ensures found { IfSome result (IsFirstOther faults.now features.now) }
    ensures none { IfNone result (AreOfPolygons features.now
        × (length faults.now ≡ length features.now)) }
{
    'features: for (at, feature) in features.iter().enumerate() {
        if !is_of_polygons(feature) {
            return Some(faults[at]);
        }
    }
    if features.len() < faults.len() {
        return Some(faults[features.len()]);
    }
    None
}

/// Whether a feature is of the type of polygons.
fn is_of_polygons(feature: &FeatureBytes<'_>) -> bool
    ensures yes { IsTrue result → (it : FeatureRecord) → Encodes feature.now it
        → it.kind ≡ type_number polygon }
    ensures no { IsFalse result → (it : FeatureRecord) → Encodes feature.now it
        → it.kind ≢ type_number polygon }
{
    match feature.kind() {
        Kind::Polygon => true,
        _ => false,
    }
}

/// Mends all features that have faults, of a tile with no other faults.
fn mend_features(
    alloc: Global,
    profile: Profile,
    drop_unmended: bool,
    bytes: &[u8],
    faults: &[Fault],
    places: &[FeaturePlace],
    features: &[FeatureBytes<'_>],
) -> Result<Mending, AllocError>
    requires list { AreFaultsFor Least profile bytes.now faults.now }
    requires some { faults.now ≢ [] }
    requires places { ArePlacesOf faults.now places.now }
    requires all { length faults.now ≡ length features.now }
    requires found { AreAllFound bytes.now places.now features.now }
    requires polygons { AreOfPolygons features.now }
    ensures { IfOk result (IsMendingBy profile drop_unmended bytes.now) }
{
    let mut work = Work::new(MOST_WORK);
    match find_changes(
        alloc,
        profile,
        drop_unmended,
        faults,
        places,
        features,
        &mut work,
    )? {
        ChangesFound::All(changes) => {
            let mended = splice(alloc, bytes, &changes.made)?;
            Ok(Mending::Mended(MendedTile {
                bytes: mended,
                changes: changes.told,
            }))
        }
        ChangesFound::Unmended(at) => Ok(Mending::Refused(faults[at])),
    }
}
