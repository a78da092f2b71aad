//! The first fault of the polygons of a feature where they are kept apart.
ghost use Rattle.std.specs.Prelude.{◌≡◌, None, IfNone, IfOk, IfSome, OnOk};
ghost use Rattle.mvt_rules.specs.Valid.{AreValidRingsBy};
ghost use Rattle.mvt_fault.specs.declared.profile.Profile.TheVariants.{Feature};
ghost use Rattle.mvt_sweep.specs.Rings.{rings_of, AreProperRings};
ghost use Rattle.mvt_rules.specs.Ring.{ArePolygonRings};
ghost use Rattle.mvt_gate.specs.Calls.Polygons.{IsFeatureAnswerFor, cause_fault};
ghost use Rattle.mvt_gate.specs.Quick.{IsFirstOfRingsFor};

use super::{PolygonPlace, hole_fault, meeting_fault};
use crate::quick::Search;
use mvt_fault::Fault;
use mvt_feature::{FeatureCause, FeatureFault, check_feature, check_feature_quickly};
use mvt_plane::{Count, Point};
use std::alloc::{AllocError, Global};

/// Stores the first fault of the polygons of a feature, one after another, or quickly any meeting of
/// their edges, in `found`, which is None before and stays so where all of them are valid and apart. No
/// ring has a fault of its own. The only error is that memory was refused.
pub(super) fn find_apart(
    alloc: Global,
    search: Search,
    rings: &[Vec<Point>],
    count: &mut Count,
    layer: usize,
    feature: usize,
    found: &mut Option<Fault>,
) -> Result<(), AllocError>
    requires nothing { found.old ≡ None }
    requires sound { ArePolygonRings (rings_of rings.now) }
    requires drawn { AreProperRings (rings_of rings.now) }
    ensures valid { OnOk result (IfNone found.new
        (AreValidRingsBy Feature (rings_of rings.now))) }
    ensures found { OnOk result (IfSome found.new
        (IsFirstOfRingsFor search Feature (rings_of rings.now) layer feature)) }
{
    let Some(first) = first_fault(alloc, search, rings, count)? else {
        return Ok(());
    };
    let place = PolygonPlace {
        layer,
        feature,
        polygon: first.polygon,
    };
    *found = Some(cause_fault(place, first.cause));
    Ok(())
}

/// The first polygon of a feature with a fault, or quickly any meeting.
fn first_fault(
    alloc: Global,
    search: Search,
    rings: &[Vec<Point>],
    count: &mut Count,
) -> Result<Option<FeatureFault>, AllocError>
    requires sound { ArePolygonRings (rings_of rings.now) }
    requires drawn { AreProperRings (rings_of rings.now) }
    ensures { IfOk result (IsFeatureAnswerFor search (rings_of rings.now)) }
{
    match search {
        Search::Least => check_feature(alloc, rings, count),
        Search::Quick => check_feature_quickly(alloc, rings, count),
    }
}

/// The fault of what was found wrong with a polygon of a feature.
fn cause_fault(place: PolygonPlace, cause: FeatureCause) -> Fault
    ensures { result ≡ cause_fault place cause }
{
    match cause {
        FeatureCause::Meeting(meeting) => meeting_fault(place, meeting),
        FeatureCause::Nesting(fault) => hole_fault(place, fault),
        FeatureCause::Apart(fault) => Fault::InPolygon {
            layer: place.layer,
            feature: place.feature,
            polygon: place.polygon,
            vertex: fault.vertex,
            other: fault.other,
        },
    }
}
