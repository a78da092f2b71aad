//! Which polygons keep all rules by themselves.
ghost use Rattle.std.specs.Prelude.{◌<◌, ◌≤◌, IfOk, length, slice_range};
ghost use Rattle.mvt_mend.specs.Calls.Judged.{AreJudged, IsRightMark};
ghost use Rattle.mvt_polygon.specs.Polygons.{ArePolygons};
ghost use Rattle.mvt_sweep.specs.Rings.{rings_of};

use crate::kept::known::is_known_wrong;
use mvt_feature::{FeatureCause, check_feature};
use mvt_plane::{Count, Point};
use mvt_polygon::{check_polygon, check_rings};
use mvt_sweep::{Meeting, are_proper};
use std::alloc::{AllocError, Global};

/// Of each polygon whether it keeps all rules by itself. `known` are edges that may meet wrongly, if
/// such are known.
pub(super) fn marks_of(
    alloc: Global,
    rings: &[Vec<Point>],
    polygons: &[(usize, usize)],
    known: Option<&Meeting>,
) -> Result<Vec<bool>, AllocError>
    requires { ArePolygons (rings_of rings.now) polygons.now }
    ensures { IfOk result (λ right. AreJudged (rings_of rings.now) polygons.now right.items) }
{
    let mut right = Vec::with_capacity(alloc, polygons.len())?;
    for polygon in 0..polygons.len() {
        let (exterior, after) = polygons[polygon];
        right.push(is_right(alloc, rings, exterior, after, known)?)?;
    }
    Ok(right)
}

/// Whether the polygon of these rings keeps all rules by itself.
fn is_right(
    alloc: Global,
    rings: &[Vec<Point>],
    exterior: usize,
    after: usize,
    known: Option<&Meeting>,
) -> Result<bool, AllocError>
    requires in_order { exterior < after }
    requires within { after ≤ length rings.now }
    ensures { IfOk result (IsRightMark (slice_range rings.now exterior after)) }
{
    let polygon = &rings[exterior..after];
    if is_known_wrong(polygon, exterior, known) {
        return Ok(false);
    }
    are_right(alloc, polygon)
}

/// Whether the rings are those of one polygon that keeps all rules: three vertices or more each,
/// none at the position of the next one, and no fault of rings or of the polygon. The only error is
/// that memory was refused.
pub(crate) fn are_right(alloc: Global, rings: &[Vec<Point>]) -> Result<bool, AllocError>
    ensures { IfOk result (IsRightMark rings.now) }
{
    if !are_proper(rings) {
        return Ok(false);
    }
    if let Some(_fault) = check_rings(rings) {
        return Ok(false);
    }
    match check_polygon(alloc, rings, 0, rings.len(), &mut Count::new())? {
        Some(_fault) => Ok(false),
        None => Ok(true),
    }
}

/// Whether the rings are those of polygons of which none crosses, touches or lies in another. The
/// only error is that memory was refused.
pub(crate) fn are_feature_right(alloc: Global, rings: &[Vec<Point>]) -> Result<bool, AllocError> {
    if !are_proper(rings) {
        return Ok(false);
    }
    if let Some(_fault) = check_rings(rings) {
        return Ok(false);
    }
    match check_feature(alloc, rings, &mut Count::new())? {
        Some(fault) => Ok(!is_cause(fault.cause)),
        None => Ok(true),
    }
}

/// Whether it is the cause of a fault of a feature, as each is.
fn is_cause(cause: FeatureCause) -> bool {
    match cause {
        FeatureCause::Meeting(_) | FeatureCause::Nesting(_) | FeatureCause::Apart(_) => true,
    }
}
