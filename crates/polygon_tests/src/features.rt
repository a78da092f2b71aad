//! Features whose polygons are kept apart, judged plainly too.

mod islands;
mod thrown;

use crate::dice::Dice;
use mvt_feature::{FeatureCause, FeatureFault, check_feature, check_feature_quickly};
use mvt_plane::{Count, Point};
use mvt_polygon::{ApartFault, NestFault, check_apart, check_nesting, check_rings, groups};
use mvt_sweep::{are_proper, find_meeting};
use std::alloc::Global;
use std::process::Abort;
use thrown::{lake_at, land_at, thrown_feature, thrown_islands};

/// The fault of a polygon's holes, with the numbers that the rings have in the feature, in which the
/// exterior has this number.
fn in_feature(fault: NestFault, exterior: usize) -> NestFault {
    match fault {
        NestFault::Outside { ring, vertex } => NestFault::Outside {
            ring: exterior.wrapping_add(ring),
            vertex,
        },
        NestFault::InHole {
            ring,
            vertex,
            other,
        } => NestFault::InHole {
            ring: exterior.wrapping_add(ring),
            vertex,
            other: exterior.wrapping_add(other),
        },
    }
}

/// The first fault of a feature, searched for plainly: of one polygon after another a meeting among
/// all rings up to its own, then its holes, then all vertices of its exterior in all other polygons.
fn plain_fault(rt: &impl Abort, alloc: Global, rings: &[Vec<Point>]) -> Option<FeatureFault> {
    assert!(rt; check_rings(rings).is_none());
    let polygons = groups(alloc, rings).expect(rt, "memory");
    for polygon in 0..polygons.len() {
        let (exterior, after) = polygons[polygon];
        assert!(rt; exterior <= after && after <= rings.len());
        assert!(rt; are_proper(&rings[..after]));
        let found = find_meeting(alloc, &rings[..after], &mut Count::new()).expect(rt, "memory");
        let cause = match (found, check_nesting(&rings[exterior..after])) {
            (Some(meeting), _) => Some(FeatureCause::Meeting(meeting)),
            (None, Some(fault)) => Some(FeatureCause::Nesting(in_feature(fault, exterior))),
            (None, None) => check_apart(rings, &polygons, polygon).map(FeatureCause::Apart),
        };
        if let Some(cause) = cause {
            return Some(FeatureFault {
                polygon,
                exterior,
                after,
                cause,
            });
        }
    }
    None
}

/// Whether two causes are the same, but for which of several meetings of one polygon is reported.
fn are_causes_alike(one: &FeatureCause, other: &FeatureCause) -> bool {
    match (one, other) {
        (FeatureCause::Meeting(_), FeatureCause::Meeting(_)) => true,
        (cause, its) => *cause == *its,
    }
}

/// Whether two answers are the same, but for that.
fn are_alike(one: &Option<FeatureFault>, other: &Option<FeatureFault>) -> bool {
    match (one, other) {
        (Some(fault), Some(its)) => {
            fault.polygon == its.polygon
                && fault.exterior == its.exterior
                && fault.after == its.after
                && are_causes_alike(&fault.cause, &its.cause)
        }
        (None, None) => true,
        _ => false,
    }
}

/// What is found in a feature, where that is what is found plainly.
fn found_in(rt: &impl Abort, alloc: Global, rings: &[Vec<Point>]) -> Option<FeatureFault> {
    assert!(rt; check_rings(rings).is_none() && are_proper(rings));
    let plain = plain_fault(rt, alloc, rings);
    let found = check_feature(alloc, rings, &mut Count::new()).expect(rt, "memory");
    assert!(rt; are_alike(&found, &plain));
    found
}

/// Whether no edges of the rings meet.
fn is_clear(rt: &impl Abort, alloc: Global, rings: &[Vec<Point>]) -> bool {
    assert!(rt; are_proper(rings));
    let found = find_meeting(alloc, rings, &mut Count::new()).expect(rt, "memory");
    found.is_none()
}

/// Whether the fault is a meeting, and edges of the rings up to its polygon's last one meet.
fn is_true_meeting(
    rt: &impl Abort,
    alloc: Global,
    rings: &[Vec<Point>],
    found: &Option<FeatureFault>,
) -> bool {
    let Some(fault) = found else {
        return false;
    };
    assert!(rt; fault.after <= rings.len());
    matches!(fault.cause, FeatureCause::Meeting(_)) && !is_clear(rt, alloc, &rings[..fault.after])
}

/// What is found quickly in a feature, where that is what is found plainly, or a meeting.
fn quickly_found_in(rt: &impl Abort, alloc: Global, rings: &[Vec<Point>]) -> Option<FeatureFault> {
    assert!(rt; check_rings(rings).is_none() && are_proper(rings));
    let plain = plain_fault(rt, alloc, rings);
    let found = check_feature_quickly(alloc, rings, &mut Count::new()).expect(rt, "memory");
    assert!(rt; are_alike(&found, &plain) || is_true_meeting(rt, alloc, rings, &found));
    found
}

/// Of generated features, how many have no fault, a meeting, a hole that isn't where it should be,
/// and a vertex in another polygon; and of how many another fault is found quickly.
fn kinds_found(rt: &impl Abort, alloc: Global) -> [u32; 5] {
    let mut dice = Dice::new();
    let mut kinds = [0_u32; 5];
    for feature in 0..800_u32 {
        let rings = if feature < 600 {
            thrown_feature(rt, alloc, &mut dice)
        } else {
            thrown_islands(rt, alloc, &mut dice)
        };
        let found = found_in(rt, alloc, &rings);
        if !are_alike(&quickly_found_in(rt, alloc, &rings), &found) {
            kinds[4] = kinds[4].wrapping_add(1);
        }
        let kind = match found {
            None => 0,
            Some(fault) => match fault.cause {
                FeatureCause::Meeting(_) => 1,
                FeatureCause::Nesting(_) => 2,
                FeatureCause::Apart(_) => 3,
            },
        };
        kinds[kind] = kinds[kind].wrapping_add(1);
    }
    kinds
}

// Each kind is there, and each answer is the plain one, or quickly a meeting.
#[test]
fn generated_features(rt: HostRuntime) {
    let [right, meetings, holes, inside, others] = kinds_found(&rt, rt.alloc());
    assert!(rt; right > 20 && meetings > 20 && holes > 20 && inside > 20);
    assert!(rt; others > 2);
}

/// A box and a smaller one in it.
fn box_in_another(rt: &impl Abort, alloc: Global) -> Vec<Vec<Point>> {
    let mut rings = Vec::new(alloc);
    let outer = land_at(rt, alloc, (0, 0), (100, 100));
    rings.push(outer).expect(rt, "memory");
    let inner = land_at(rt, alloc, (10, 10), (20, 20));
    rings.push(inner).expect(rt, "memory");
    rings
}

/// Whether the fault is that the second polygon lies in the first one.
fn is_in_first(found: Option<FeatureFault>) -> bool {
    let Some(fault) = found else {
        return false;
    };
    let cause = FeatureCause::Apart(ApartFault {
        vertex: 0,
        other: 0,
    });
    fault.polygon == 1 && fault.exterior == 1 && fault.after == 2 && fault.cause == cause
}

// Where no edges meet, a polygon in another one is told.
#[test]
fn tells_a_polygon_in_another(rt: HostRuntime) {
    let rings = box_in_another(&rt, rt.alloc());
    assert!(rt; is_in_first(found_in(&rt, rt.alloc(), &rings)));
    assert!(rt; is_in_first(quickly_found_in(&rt, rt.alloc(), &rings)));
}

/// The polygon whose edges are found to meet quickly, where an earlier one lies in another.
fn polygon_that_meets(rt: &impl Abort, alloc: Global, rings: &[Vec<Point>]) -> Option<usize> {
    let plain = found_in(rt, alloc, rings)?;
    assert!(rt; plain.polygon == 1 && matches!(plain.cause, FeatureCause::Apart(_)));
    let quick = quickly_found_in(rt, alloc, rings)?;
    assert!(rt; matches!(quick.cause, FeatureCause::Meeting(_)));
    Some(quick.polygon)
}

// Two boxes that cross, far from the others.
#[test]
fn tells_polygons_that_cross_before_one_in_another(rt: HostRuntime) {
    let mut rings = box_in_another(&rt, rt.alloc());
    let one = land_at(&rt, rt.alloc(), (200, 0), (300, 100));
    rings.push(one).expect(&rt, "memory");
    let other = land_at(&rt, rt.alloc(), (250, 50), (350, 150));
    rings.push(other).expect(&rt, "memory");
    assert!(rt; polygon_that_meets(&rt, rt.alloc(), &rings) == Some(3));
}

// A hole that crosses its exterior, of a later polygon whose bounds are apart from those of all
// others.
#[test]
fn tells_a_polygon_in_another_before_a_hole_that_crosses(rt: HostRuntime) {
    let mut rings = box_in_another(&rt, rt.alloc());
    let land = land_at(&rt, rt.alloc(), (200, 0), (300, 100));
    rings.push(land).expect(&rt, "memory");
    let lake = lake_at(&rt, rt.alloc(), (250, 50), (350, 90));
    rings.push(lake).expect(&rt, "memory");
    assert!(rt; is_in_first(found_in(&rt, rt.alloc(), &rings)));
    assert!(rt; is_in_first(quickly_found_in(&rt, rt.alloc(), &rings)));
}
