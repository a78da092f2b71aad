//! Vertices of polygons inside others of their feature.

use crate::rings::{Coordinates, SQUARE, rings_at};
use mvt_polygon::{check_apart, check_rings, groups};

const GROUND: Coordinates = &[(0, 0), (100, 0), (100, 100), (0, 100)];

const HOLE_OF_GROUND: Coordinates = &[(10, 10), (10, 90), (90, 90), (90, 10)];

const ISLAND: Coordinates = &[(20, 20), (80, 20), (80, 80), (20, 80)];

const HOLE_OF_ISLAND: Coordinates = &[(25, 25), (25, 75), (75, 75), (75, 25)];

const STONE: Coordinates = &[(30, 30), (40, 30), (40, 40), (30, 40)];

/// The rings of features, and of each polygon of them the vertex and the other polygon of its
/// fault.
const FEATURES: &[(&[Coordinates], &[Option<(usize, usize)>])] = &[
    // Squares that cross, that have a side in common, and in one place.
    (
        &[SQUARE, &[(5, 5), (15, 5), (15, 15), (5, 15)]],
        &[Some((2, 1)), Some((0, 0))],
    ),
    (
        &[SQUARE, &[(10, 0), (20, 0), (20, 10), (10, 10)]],
        &[Some((1, 1)), None],
    ),
    (&[SQUARE, SQUARE], &[Some((0, 1)), Some((0, 0))]),
    // On another polygon, in its hole, in the hole of an island in its hole, and on that island.
    (&[GROUND, STONE], &[None, Some((0, 0))]),
    (&[GROUND, HOLE_OF_GROUND, STONE], &[None, None]),
    (
        &[GROUND, HOLE_OF_GROUND, ISLAND, HOLE_OF_ISLAND, STONE],
        &[None, None, None],
    ),
    (
        &[GROUND, HOLE_OF_GROUND, ISLAND, STONE],
        &[None, None, Some((0, 1))],
    ),
    // An earlier and a later polygon are around all vertices of the second one, or around one of
    // them each.
    (
        &[GROUND, STONE, ISLAND],
        &[None, Some((0, 0)), Some((0, 0))],
    ),
    (
        &[
            &[(35, 35), (50, 35), (50, 50), (35, 50)],
            STONE,
            &[(20, 20), (34, 20), (34, 34), (20, 34)],
        ],
        &[Some((0, 1)), Some((0, 2)), Some((2, 1))],
    ),
];

#[test]
fn vertices_inside_other_polygons(rt: HostRuntime) {
    for &(coordinates, faults) in FEATURES {
        let rings = rings_at(&rt, rt.alloc(), coordinates);
        assert!(rt; check_rings(&rings).is_none());
        let polygons = groups(rt.alloc(), &rings).expect(&rt, "memory");
        assert!(rt; polygons.len() == faults.len());
        for polygon in 0..polygons.len() {
            let fault = check_apart(&rings, &polygons, polygon);
            assert!(rt; fault.map(|fault| (fault.vertex, fault.other)) == faults[polygon]);
        }
    }
}
