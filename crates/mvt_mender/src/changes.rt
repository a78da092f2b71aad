//! What becomes of the features that have faults.
ghost use Rattle.std.specs.Prelude.{◌≡◌, false, length, IfOk, IfNone, IfSome};
ghost use Rattle.mvt_mender.specs.Calls.Steps.{IsChangesAnswer, IsMadeAt};

use crate::feature::mend_feature;
use crate::mending::{FeatureChange, WhatChanged};
use crate::place::FeaturePlace;
use mvt_fault::{Fault, Profile};
use mvt_mend::Work;
use mvt_splice::Change;
use mvt_tile::FeatureBytes;
use std::alloc::{AllocError, Global};

/// Changes to the features of a tile, one for each that has a fault.
#[derive(Drop)]
pub(crate) struct Changes {
    /// What is told of them.
    pub(crate) told: Vec<FeatureChange>,
    /// What is done to the bytes.
    pub(crate) made: Vec<Change>,
}

/// What became of all features that have faults.
#[derive(Drop)]
pub(crate) enum ChangesFound {
    /// There is a change for each.
    All(Changes),
    /// The feature with this number couldn't be mended.
    Unmended(usize),
}

/// The changes to the features at these places, in their order, which have these faults. Where the
/// caller asks for that, those that can't be mended are left out. The only error is that memory was
/// refused.
pub(crate) fn find_changes(
    alloc: Global,
    profile: Profile,
    drop_unmended: bool,
    faults: &[Fault],
    places: &[FeaturePlace],
    features: &[FeatureBytes<'_>],
    work: &mut Work,
) -> Result<ChangesFound, AllocError>
    requires { length features.now ≡ length places.now }
    ensures { IfOk result (IsChangesAnswer profile drop_unmended places.now features.now) }
{
    let mut told = Vec::new(alloc);
    let mut made = Vec::new(alloc);
    'features: for (at, feature) in features.iter().enumerate() {
        let place = places[at];
        let fault = faults.get(at);
        let Some((one, change)) = change_of(
            alloc,
            profile,
            drop_unmended,
            place,
            feature,
            fault,
            work,
        )?
        else {
            return Ok(ChangesFound::Unmended(at));
        };
        told.push(one)?;
        made.push(change)?;
    }
    Ok(ChangesFound::All(Changes { told, made }))
}

/// The change to one feature, or None where it couldn't be mended and is to stay.
fn change_of(
    alloc: Global,
    profile: Profile,
    drop_unmended: bool,
    place: FeaturePlace,
    feature: &FeatureBytes<'_>,
    fault: Option<&Fault>,
    work: &mut Work,
) -> Result<Option<(FeatureChange, Change)>, AllocError>
    ensures made { IfOk result (λ found. IfSome found (λ r.
        IsMadeAt profile drop_unmended place feature.now r.0 r.1)) }
    ensures unmended { IfOk result (λ found. IfNone found (drop_unmended ≡ false)) }
{
    let (what, geometry) = match mend_feature(alloc, profile, feature, fault, work)? {
        Some(new) => (WhatChanged::Mended(new.mended), Some(new.numbers)),
        None if drop_unmended => (WhatChanged::Dropped, None),
        None => return Ok(None),
    };
    let FeaturePlace { layer, feature } = place;
    let one = FeatureChange {
        layer,
        feature,
        what,
    };
    let change = Change {
        layer,
        feature,
        geometry,
    };
    Ok(Some((one, change)))
}
