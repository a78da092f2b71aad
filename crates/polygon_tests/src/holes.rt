//! Places of holes in their polygons.
ghost use Rattle.mvt_sweep.specs.Rings.{rings_of, AreProperRings};

use crate::rings::{
    Coordinates, FRAME, HOLE_ACROSS, HOLE_BESIDE, HOLE_IN_HOLE, HOLE_OF_FRAME, NOTCHED, SQUARE,
    rings_at,
};
use mvt_plane::{Count, Point};
use mvt_polygon::{NestFault, check_nesting, check_nesting_once};
use mvt_sweep::{are_proper, find_meeting};
use std::alloc::Global;
use std::process::Abort;

/// Rings of which no edges meet wrongly, their fault, and the probes of `check_nesting_once`: a
/// hole is held against its exterior, and two against the exterior and each other.
pub(crate) const PLACES: &[(&[Coordinates], Option<NestFault>, u64)] = &[
    (&[SQUARE], None, 0),
    (&[FRAME, HOLE_OF_FRAME], None, 4),
    (
        &[SQUARE, HOLE_BESIDE],
        Some(NestFault::Outside { ring: 1, vertex: 0 }),
        4,
    ),
    (
        HOLE_IN_HOLE,
        Some(NestFault::InHole {
            ring: 2,
            vertex: 0,
            other: 1,
        }),
        16,
    ),
];

/// A hole with one vertex outside, and one that crosses its exterior with all vertices inside.
const ACROSS: &[(&[Coordinates], Option<NestFault>)] = &[
    (
        &[SQUARE, &[(5, 5), (5, 7), (20, 6)]],
        Some(NestFault::Outside { ring: 1, vertex: 2 }),
    ),
    (&[NOTCHED, HOLE_ACROSS], None),
];

/// The fault of the polygon of rings through these coordinates.
fn fault_at(rt: &impl Abort, alloc: Global, coordinates: &[&[(i32, i32)]]) -> Option<NestFault> {
    check_nesting(&rings_at(rt, alloc, coordinates))
}

#[test]
fn places_of_holes(rt: HostRuntime) {
    for &(rings, place, _) in PLACES {
        assert!(rt; fault_at(&rt, rt.alloc(), rings) == place);
    }
    for &(rings, place) in ACROSS {
        assert!(rt; fault_at(&rt, rt.alloc(), rings) == place);
    }
}

/// Whether no two edges of drawn rings meet wrongly, and this is the fault of their polygon, after
/// so many probes.
fn finds(
    rt: &impl Abort,
    alloc: Global,
    rings: &[Vec<Point>],
    fault: Option<NestFault>,
    probes: u64,
) -> bool
    requires { AreProperRings (rings_of rings.now) }
{
    let mut count = Count::new();
    match find_meeting(alloc, rings, &mut Count::new()).expect(rt, "memory") {
        Some(_) => false,
        None => check_nesting_once(rings, &mut count) == fault && count.probes() == probes,
    }
}

#[test]
fn places_of_holes_after_a_search(rt: HostRuntime) {
    for &(coordinates, fault, probes) in PLACES {
        let rings = rings_at(&rt, rt.alloc(), coordinates);
        assert!(rt; are_proper(&rings) && finds(&rt, rt.alloc(), &rings, fault, probes));
    }
}
