//! Faults that are true in the profile that keeps the polygons of a feature apart.

use super::{CROSSING, HOLE_IN_HOLE, confirm, hole_in, meeting};
use mvt_confirm::confirm_with;
use mvt_fault::{Fault, Profile};

/// Squares of 10 from (0,0) and (5,5).
const OVERLAP: &[u8] =
    b"\x1a\x21\x78\x02\x0a\x01a\x12\x1a\x18\x03\x22\x16\x09\x00\x00\x1a\x14\x00\x00\x14\x13\x00\x0f\
    \x09\x0a\x09\x1a\x14\x00\x00\x14\x13\x00\x0f";

/// A bar from (0,10) to (30,20), and one from (10,0) to (20,30).
const BARS: &[u8] =
    b"\x1a\x21\x78\x02\x0a\x01a\x12\x1a\x18\x03\x22\x16\x09\x00\x14\x1a\x3c\x00\x00\x14\x3b\x00\x0f\
    \x09\x14\x27\x1a\x14\x00\x00\x3c\x13\x00\x0f";

/// A square of 100, and one of 10 from (20,20).
const ON_SQUARE: &[u8] =
    b"\x1a\x25\x78\x02\x0a\x01a\x12\x1e\x18\x03\x22\x1a\x09\x00\x00\x1a\xc8\x01\x00\x00\xc8\
    \x01\xc7\x01\x00\x0f\x09\x28\x9f\x01\x1a\x14\x00\x00\x14\x13\x00\x0f";

/// A square of 100 with a hole from (10,10) to (90,90), and in the hole a square of 10 from
/// (20,20).
const ISLAND: &[u8] =
    b"\x1a\x34\x78\x02\x0a\x01a\x12\x2d\x18\x03\x22\x29\x09\x00\x00\x1a\xc8\x01\x00\x00\xc8\
    \x01\xc7\x01\x00\x0f\x09\x14\xb3\x01\x1a\x00\xa0\x01\xa0\x01\x00\x00\x9f\x01\x0f\x09\x8b\x01\x14\x1a\x14\x00\x00\x14\x13\x00\x0f";

/// Squares of 10 from (0,0) and (10,0).
const SIDE_BY_SIDE: &[u8] =
    b"\x1a\x21\x78\x02\x0a\x01a\x12\x1a\x18\x03\x22\x16\x09\x00\x00\x1a\x14\x00\x00\x14\x13\x00\x0f\
    \x09\x14\x13\x1a\x14\x00\x00\x14\x13\x00\x0f";

/// A square of 100, and on it a triangle with a hole of four vertices.
const HOLLOW: &[u8] =
    b"\x1a\x2e\x78\x02\x0a\x01a\x12\x27\x18\x03\x22\x23\x09\x00\x00\x1a\xc8\x01\x00\x00\xc8\
    \x01\xc7\x01\x00\x0f\x09\x28\x9f\x01\x12\x78\x00\x3b\x78\x0f\x09\x13\x63\x1a\x00\x14\x28\x00\x00\x13\x0f";

/// A square of 100, on it a triangle, and a ring without area.
const FLAT: &[u8] =
    b"\x1a\x2d\x78\x02\x0a\x01a\x12\x26\x18\x03\x22\x22\x09\x00\x00\x1a\xc8\x01\x00\x00\xc8\
    \x01\xc7\x01\x00\x0f\x09\x28\x9f\x01\x12\x78\x00\x3b\x78\x0f\x09\x63\x9f\x01\x12\x14\x14\x14\x14\x0f";

/// The fault of the one layer's one feature that a vertex of a polygon's exterior is inside another
/// polygon.
fn in_polygon(polygon: usize, vertex: usize, other: usize) -> Fault {
    Fault::InPolygon {
        layer: 0,
        feature: 0,
        polygon,
        vertex,
        other,
    }
}

/// Whether the fault is true of the bytes where a feature's polygons are kept apart, and there
/// alone.
fn is_in_feature_alone(bytes: &[u8], fault: &Fault) -> bool {
    confirm_with(Profile::Feature, bytes, fault)
        && !confirm_with(Profile::Polygon, bytes, fault)
        && !confirm(bytes, fault)
}

/// Whether the fault is true of the bytes by any profile.
fn is_anywhere(bytes: &[u8], fault: &Fault) -> bool {
    confirm_with(Profile::Feature, bytes, fault) || confirm_with(Profile::Polygon, bytes, fault)
}

#[test]
fn polygons_in_others(rt: HostRuntime) {
    assert!(rt; is_in_feature_alone(OVERLAP, &in_polygon(0, 2, 1)));
    assert!(rt; is_in_feature_alone(OVERLAP, &in_polygon(1, 0, 0)));
    assert!(rt; is_in_feature_alone(ON_SQUARE, &in_polygon(1, 0, 0)));
    assert!(rt; is_in_feature_alone(SIDE_BY_SIDE, &in_polygon(0, 1, 1)));
    assert!(rt; is_in_feature_alone(HOLLOW, &in_polygon(1, 2, 0)));
}

// The crossing of two polygons is reported for the second one alone, and in the order of the edges.
#[test]
fn two_bars(rt: HostRuntime) {
    let point = (18000, 9000, 900);
    assert!(rt; is_in_feature_alone(BARS, &meeting(0, 1, (0, 0), (1, 1), point)));
    assert!(rt; is_in_feature_alone(BARS, &meeting(0, 1, (0, 0), (1, 1), (20, 10, 1))));
    assert!(rt; !is_anywhere(BARS, &meeting(0, 0, (0, 0), (1, 1), point)));
    assert!(rt; !is_anywhere(BARS, &meeting(0, 1, (1, 1), (0, 0), point)));
    assert!(rt; !is_anywhere(BARS, &meeting(0, 1, (0, 1), (1, 1), point)));
}

#[test]
fn an_island_in_a_hole(rt: HostRuntime) {
    for vertex in 0..5 {
        assert!(rt; !is_anywhere(ISLAND, &in_polygon(1, vertex, 0)));
        assert!(rt; !is_anywhere(ISLAND, &in_polygon(0, vertex, 1)));
    }
}

// By the rule for points on a ring, the first vertex of a square is inside that square.
#[test]
fn a_polygon_in_itself(rt: HostRuntime) {
    assert!(rt; !is_anywhere(OVERLAP, &in_polygon(0, 0, 0)));
    assert!(rt; !is_anywhere(OVERLAP, &in_polygon(1, 0, 1)));
}

// Vertices that aren't there, or that a hole alone has, and one where a ring has a fault of its
// own.
#[test]
fn other_vertices(rt: HostRuntime) {
    assert!(rt; !is_anywhere(OVERLAP, &in_polygon(0, 1, 1)));
    assert!(rt; !is_anywhere(ON_SQUARE, &in_polygon(1, 4, 0)));
    assert!(rt; !is_anywhere(HOLLOW, &in_polygon(1, 3, 0)));
    assert!(rt; !is_anywhere(FLAT, &in_polygon(1, 0, 0)));
}

// Polygons that aren't there, and the greatest ordinal in each place.
#[test]
fn other_ordinals(rt: HostRuntime) {
    let most = usize::MAX;
    assert!(rt; !is_anywhere(OVERLAP, &in_polygon(2, 0, 0)));
    assert!(rt; !is_anywhere(OVERLAP, &in_polygon(0, 2, 2)));
    assert!(rt; !is_anywhere(OVERLAP, &in_polygon(most, 0, 0)));
    assert!(rt; !is_anywhere(OVERLAP, &in_polygon(0, most, 1)));
    assert!(rt; !is_anywhere(OVERLAP, &in_polygon(0, 2, most)));
    let fault = Fault::InPolygon {
        layer: 0,
        feature: most,
        polygon: 0,
        vertex: 2,
        other: 1,
    };
    assert!(rt; !is_anywhere(OVERLAP, &fault));
}

// What is wrong with a polygon by itself is wrong in its feature too.
#[test]
fn faults_of_one_polygon(rt: HostRuntime) {
    let crossing = meeting(0, 0, (0, 0), (0, 2), (40, 40, 9));
    assert!(rt; confirm_with(Profile::Feature, CROSSING, &crossing));
    assert!(rt; confirm_with(Profile::Polygon, CROSSING, &crossing));
    assert!(rt; confirm_with(Profile::Feature, HOLE_IN_HOLE, &hole_in(1)));
    assert!(rt; !confirm_with(Profile::Feature, HOLE_IN_HOLE, &hole_in(2)));
}
