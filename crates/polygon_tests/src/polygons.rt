//! Polygons with known faults, and the work that was counted.

use crate::holes::PLACES;
use crate::meetings::{Edges, is_one_of, is_some_work};
use crate::rings::{Coordinates, HOLE_BESIDE, SQUARE, ring_at, rings_at};
use mvt_plane::{Count, Point};
use mvt_polygon::{NestFault, PolygonFault, check_polygon};
use mvt_sweep::{Meeting, are_proper};
use std::alloc::Global;
use std::process::Abort;

/// The fault of the polygon of these rings, and the work of it.
fn fault_in(rt: &impl Abort, alloc: Global, rings: &[Vec<Point>]) -> (Option<PolygonFault>, Count) {
    assert!(rt; are_proper(rings));
    let mut count = Count::new();
    let fault = check_polygon(alloc, rings, 0, rings.len(), &mut count).expect(rt, "memory");
    (fault, count)
}

/// The fault of the polygon of rings through these coordinates.
fn fault_at(rt: &impl Abort, alloc: Global, coordinates: &[&[(i32, i32)]]) -> Option<PolygonFault> {
    fault_in(rt, alloc, &rings_at(rt, alloc, coordinates)).0
}

/// The meeting in a fault, if it is one.
fn meeting_of(fault: Option<PolygonFault>) -> Option<Meeting> {
    match fault {
        Some(PolygonFault::Meeting(meeting)) => Some(meeting),
        _ => None,
    }
}

/// Rings, the pairs of edges of which any may be found, and the point: edges that cross in a ring,
/// also beside a hole, and a vertex of a hole on an edge.
const MEETINGS: &[(&[Coordinates], &[Edges], (i128, i128, i128))] = &[
    (
        &[&[(0, 8), (10, 0), (10, 10), (0, 0)]],
        &[((0, 0), (0, 2))],
        (800, 800, 180),
    ),
    (
        &[
            &[(0, 80), (100, 0), (100, 100), (20, 10)],
            &[(10, 60), (30, 50), (30, 45)],
        ],
        &[((0, 0), (0, 2))],
        (740_000, 640_000, 15_400),
    ),
    (
        &[SQUARE, &[(0, 5), (3, 7), (3, 3)]],
        &[((0, 3), (1, 0)), ((0, 3), (1, 2))],
        (0, 5, 1),
    ),
];

#[test]
fn meetings(rt: HostRuntime) {
    for &(rings, pairs, point) in MEETINGS {
        let meeting = meeting_of(fault_at(&rt, rt.alloc(), rings));
        assert!(rt; is_one_of(meeting, pairs, point));
    }
}

/// Rings of few edges, how many probes they take and how many pairs of edges need a test up to the
/// first that meets. A square takes a probe for each turn and no test, also on its corner, where the
/// boxes of opposite edges touch. Else the edge of the number n takes a probe for each four before
/// it, and one for the others. Of an L none needs a test: edges that follow each other make a turn,
/// and others have boxes that are apart. Of the other two one does, which crosses or goes back.
const FEW_EDGES: [(Coordinates, u64, u64); 5] = [
    (SQUARE, 4, 0),
    (&[(5, 0), (10, 5), (5, 10), (0, 5)], 4, 0),
    (&[(0, 0), (9, 0), (9, 4), (4, 4), (4, 9), (0, 9)], 8, 0),
    (&[(0, 8), (10, 0), (10, 10), (0, 0)], 4, 1),
    (&[(0, 0), (10, 0), (5, 0)], 3, 1),
];

// All pairs of edges are checked, and no status is needed.
#[test]
fn all_pairs_of_few_edges(rt: HostRuntime) {
    for (ring, probes, tests) in FEW_EDGES {
        let rings = rings_at(&rt, rt.alloc(), &[ring]);
        let (fault, count) = fault_in(&rt, rt.alloc(), &rings);
        assert!(rt; fault.is_some() == (tests == 1));
        assert!(rt; (count.tests(), count.probes(), count.visits()) == (tests, probes, 0));
    }
}

#[test]
fn places_of_holes(rt: HostRuntime) {
    for &(rings, place, _) in PLACES {
        let wanted = match place {
            Some(fault) => Some(PolygonFault::Nesting(fault)),
            None => None,
        };
        assert!(rt; fault_at(&rt, rt.alloc(), rings) == wanted);
    }
}

// Of a feature's second polygon, a square with a hole beside it, the rings have the ordinals of the
// feature.
#[test]
fn ordinals_in_the_feature(rt: HostRuntime) {
    let rings = rings_at(&rt, rt.alloc(), &[SQUARE, SQUARE, HOLE_BESIDE]);
    assert!(rt; are_proper(&rings));
    assert_eq!(rt; rings.len(), 3);
    let fault = check_polygon(rt.alloc(), &rings, 1, 3, &mut Count::new()).expect(&rt, "memory");
    let beside = NestFault::Outside { ring: 2, vertex: 0 };
    assert!(rt; fault == Some(PolygonFault::Nesting(beside)));
}

/// A triangle, one of many in rows of 400.
fn triangle(number: i32) -> [(i32, i32); 3] {
    let left = number % 400 * 4;
    let low = number / 400 * 4;
    [
        (left + 1, low + 1),
        (left + 1, low + 3),
        (left + 3, low + 1),
    ]
}

/// An exterior with 100,000 triangles in it, and one above it.
fn many_holes(rt: &impl Abort, alloc: Global) -> Vec<Vec<Point>> {
    let mut rings = rings_at(rt, alloc, &[&[(0, 0), (1600, 0), (1600, 1000), (0, 1000)]]);
    for number in 0..100_001 {
        let ring = ring_at(rt, alloc, &triangle(number));
        rings.push(ring).expect(rt, "memory");
    }
    rings
}

// The last of as many holes is outside. Of 300,007 vertices, a number of 19 binary digits, at most
// 3 tests, 41 probes and 380 visits each.
#[test]
fn last_of_many_holes(rt: HostRuntime) {
    let rings = many_holes(&rt, rt.alloc());
    let (fault, count) = fault_in(&rt, rt.alloc(), &rings);
    let last = NestFault::Outside {
        ring: 100_001,
        vertex: 0,
    };
    assert!(rt; fault == Some(PolygonFault::Nesting(last)));
    assert!(rt; is_some_work(count.tests(), 900_021));
    assert!(rt; is_some_work(count.probes(), 12_300_287));
    assert!(rt; is_some_work(count.visits(), 114_002_660));
}
