//! Which faults are mended.
ghost use Rattle.std.specs.Prelude.{IfOk, IfNone, IfSome};
ghost use Rattle.mvt_mender.specs.Calls.Features.{ArePlacesOf, IsOfPlace, MayBeMended};

use crate::place::FeaturePlace;
use mvt_fault::{CommandCode, Fault};
use std::alloc::{AllocError, Global};

/// The places of the features of the first faults, up to the first one that isn't mended whatever
/// its feature is: only those of rings and polygons are, and those of commands that may still draw
/// rings. The only error is that memory was refused.
pub(crate) fn places_of(alloc: Global, faults: &[Fault]) -> Result<Vec<FeaturePlace>, AllocError>
    ensures places { IfOk result (λ places. ArePlacesOf faults.now places.items) }
{
    let mut places = Vec::new(alloc);
    'faults: for fault in faults {
        let Some(place) = place_of_mendable(fault) else {
            return Ok(places);
        };
        places.push(place)?;
    }
    Ok(places)
}

/// The feature of a fault that may be mended, or None of one that isn't, whatever its feature is.
fn place_of_mendable(fault: &Fault) -> Option<FeaturePlace>
    ensures place { IfSome result (λ place. MayBeMended fault.now × IsOfPlace place fault.now) }
    ensures none { IfNone result (¬ MayBeMended fault.now) }
{
    match *fault {
        Fault::Command {
            code: CommandCode::OtherCount | CommandCode::NoStep,
            layer,
            feature,
            ..
        }
        | Fault::Ring { layer, feature, .. }
        | Fault::Meeting { layer, feature, .. }
        | Fault::Outside { layer, feature, .. }
        | Fault::HoleInHole { layer, feature, .. }
        | Fault::InPolygon { layer, feature, .. } => Some(FeaturePlace { layer, feature }),
        _ => None,
    }
}
