//! Islands in lakes, which are judged without the land around them.

use crate::rings::{Coordinates, rings_at};
use mvt_feature::check_feature;
use mvt_plane::{Count, Point};
use mvt_polygon::{check_polygon, check_rings, groups};
use mvt_sweep::are_proper;
use std::alloc::Global;
use std::process::Abort;

/// A land, a lake of it with a bay, and a pond.
const LAND: Coordinates = &[(0, 0), (200, 0), (200, 100), (0, 100)];

const LAKE: Coordinates = &[(10, 10), (10, 90), (30, 90), (30, 30), (90, 30), (90, 10)];

const POND: Coordinates = &[(110, 20), (110, 80), (180, 80), (180, 20)];

/// Two islands in the lake, and one in the pond.
const IN_LAKE: Coordinates = &[(12, 40), (20, 40), (20, 50), (12, 50)];

const FURTHER_IN_LAKE: Coordinates = &[(50, 12), (60, 12), (60, 20), (50, 20)];

const IN_POND: Coordinates = &[(130, 40), (140, 40), (140, 50), (130, 50)];

/// In the bay of the lake, so on the land.
const IN_BAY: Coordinates = &[(50, 50), (60, 50), (60, 60), (50, 60)];

/// In the lake, but for a side on its shore.
const ON_SHORE: Coordinates = &[(10, 60), (20, 60), (20, 70), (10, 70)];

/// Two islands in the pond that are apart, but within each other's bounds.
const CORNER: Coordinates = &[(120, 30), (160, 30), (120, 70)];

const OTHER_CORNER: Coordinates = &[(170, 40), (170, 75), (135, 75)];

/// An island in the pond with a lake of its own, and an island in that one.
const AROUND: Coordinates = &[(120, 30), (170, 30), (170, 70), (120, 70)];

const WITHIN: Coordinates = &[(125, 35), (125, 65), (165, 65), (165, 35)];

/// Features, and whether each polygon of them is judged by itself.
const FEATURES: &[(&[Coordinates], bool)] = &[
    (&[LAND, LAKE, POND, IN_LAKE, FURTHER_IN_LAKE, IN_POND], true),
    (&[IN_LAKE, FURTHER_IN_LAKE, LAND, LAKE, POND, IN_POND], true),
    (&[LAND, LAKE, POND, IN_LAKE, IN_BAY], false),
    (&[LAND, LAKE, POND, IN_LAKE, ON_SHORE], false),
    (&[LAND, LAKE, POND, CORNER, OTHER_CORNER], false),
    (&[LAND, LAKE, POND, AROUND, WITHIN, IN_POND], false),
    (&[LAND, IN_LAKE, IN_POND], false),
];

/// The work for each polygon of the rings by itself.
fn work_of_polygons(rt: &impl Abort, alloc: Global, rings: &[Vec<Point>]) -> Count {
    assert!(rt; check_rings(rings).is_none() && are_proper(rings));
    let mut count = Count::new();
    for &(exterior, after) in &groups(alloc, rings).expect(rt, "memory") {
        assert!(rt; exterior < after && after <= rings.len());
        let fault = check_polygon(alloc, rings, exterior, after, &mut count).expect(rt, "memory");
        assert!(rt; fault.is_none());
    }
    count
}

/// The work for the rings as one feature.
fn work_of_feature(rt: &impl Abort, alloc: Global, rings: &[Vec<Point>]) -> Count {
    assert!(rt; check_rings(rings).is_none() && are_proper(rings));
    let mut count = Count::new();
    drop(check_feature(alloc, rings, &mut count).expect(rt, "memory"));
    count
}

// Islands in lakes take no more tests than by themselves, and neither does their land.
#[test]
fn features_with_islands(rt: HostRuntime) {
    for &(feature, is_each_alone) in FEATURES {
        let rings = rings_at(&rt, rt.alloc(), feature);
        let alone = work_of_polygons(&rt, rt.alloc(), &rings);
        let together = work_of_feature(&rt, rt.alloc(), &rings);
        assert!(rt; alone.probes() <= together.probes());
        assert!(rt; (alone.probes() == together.probes()) == is_each_alone);
    }
}
