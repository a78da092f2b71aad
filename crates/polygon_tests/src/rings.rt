//! Rings through coordinates, and their faults one by one.
use mvt_fault::RingCode;
use mvt_plane::Point;
use mvt_polygon::{RingFault, check_rings, groups};
use std::alloc::Global;
use std::process::Abort;

/// The vertices of a ring.
pub(crate) type Coordinates = &'static [(i32, i32)];

pub(crate) const SQUARE: Coordinates = &[(0, 0), (10, 0), (10, 10), (0, 10)];
/// It goes round as holes do, and lies beside the square.
pub(crate) const HOLE_BESIDE: Coordinates = &[(20, 0), (20, 10), (30, 10), (30, 0)];
/// The standard's second example of polygons (section 4.3.5.6).
pub(crate) const TWO_POLYGONS: &[Coordinates] = &[SQUARE, FRAME, HOLE_OF_FRAME];

/// A square, a hole in it, and another one in that.
pub(crate) const HOLE_IN_HOLE: &[Coordinates] = &[
    &[(0, 0), (100, 0), (100, 100), (0, 100)],
    &[(10, 10), (10, 90), (90, 90), (90, 10)],
    &[(20, 20), (20, 30), (30, 30), (30, 20)],
];

/// An exterior like a U, and a hole from one of its arms to the other, whose vertices are all
/// inside.
pub(crate) const NOTCHED: Coordinates = &[
    (0, 0),
    (30, 0),
    (30, 30),
    (20, 30),
    (20, 10),
    (10, 10),
    (10, 30),
    (0, 30),
];

pub(crate) const HOLE_ACROSS: Coordinates = &[(5, 20), (25, 20), (15, 5)];

pub(crate) const FRAME: Coordinates = &[(11, 11), (20, 11), (20, 20), (11, 20)];

pub(crate) const HOLE_OF_FRAME: Coordinates = &[(13, 13), (13, 17), (17, 17), (17, 13)];

/// A ring through points at these coordinates, all of which are in range.
pub(crate) fn ring_at(rt: &impl Abort, alloc: Global, coordinates: &[(i32, i32)]) -> Vec<Point> {
    let mut vertices = Vec::new(alloc);
    for &(x, y) in coordinates {
        let vertex = Point::new(x, y).expect(rt, "a position");
        vertices.push(vertex).expect(rt, "memory");
    }
    vertices
}

/// Several such rings.
pub(crate) fn rings_at(
    rt: &impl Abort,
    alloc: Global,
    coordinates: &[&[(i32, i32)]],
) -> Vec<Vec<Point>> {
    let mut rings = Vec::new(alloc);
    for ring in coordinates {
        rings.push(ring_at(rt, alloc, ring)).expect(rt, "memory");
    }
    rings
}

/// Rings, and the code of their first ring's fault: those of polygons, one that ends where it
/// begins, one along a line, and a hole that comes first.
const RINGS: &[(&[Coordinates], Option<RingCode>)] = &[
    (TWO_POLYGONS, None),
    (
        &[&[(0, 0), (10, 0), (10, 10), (0, 0)]],
        Some(RingCode::EndsAtItsBeginning),
    ),
    (&[&[(0, 0), (5, 5), (10, 10)]], Some(RingCode::NoArea)),
    (&[HOLE_BESIDE], Some(RingCode::BeginsWithHole)),
];

#[test]
fn faults_of_rings(rt: HostRuntime) {
    for &(coordinates, code) in RINGS {
        let rings = rings_at(&rt, rt.alloc(), coordinates);
        let wanted = match code {
            Some(code) => Some(RingFault { code, ring: 0 }),
            None => None,
        };
        assert!(rt; check_rings(&rings) == wanted);
    }
}

#[test]
fn a_polygon_with_a_hole_after_another(rt: HostRuntime) {
    let rings = rings_at(&rt, rt.alloc(), TWO_POLYGONS);
    assert!(rt; check_rings(&rings).is_none());
    let polygons = groups(rt.alloc(), &rings).expect(&rt, "memory");
    assert!(rt; polygons.as_slice() == [(0, 1), (1, 3)].as_slice());
}
