//! Faults that `confirm` accepts of tiles, and others close to them that it refuses.

mod by_profile;

use mvt_confirm::confirm;
use mvt_fault::{CommandCode, Fault, RingCode, RingEdge, Scope, TagCode};
use mvt_wire::WireCode;

// Tiles of one layer with version 2, the name "a" and one feature, whose geometry is packed.

/// A point, and the same without the last byte.
const POINT: &[u8] = b"\x1a\x0e\x78\x02\x0a\x01a\x12\x07\x18\x01\x22\x03\x09\x32\x22";

const TRUNCATED: &[u8] = b"\x1a\x0e\x78\x02\x0a\x01a\x12\x07\x18\x01\x22\x03\x09\x32";

/// A ring (3,6), (8,12), (20,34).
const TRIANGLE: &[u8] =
    b"\x1a\x14\x78\x02\x0a\x01a\x12\x0d\x18\x03\x22\x09\x09\x06\x0c\x12\x0a\x0c\x18\x2c\x0f";

/// A ring (0,8), (10,0), (10,10), (0,0), whose edges 0 and 2 cross at (40/9, 40/9).
const CROSSING: &[u8] =
    b"\x1a\x16\x78\x02\x0a\x01a\x12\x0f\x18\x03\x22\x0b\x09\x00\x10\x1a\x14\x0f\x00\x14\x13\x13\x0f";

/// The same numbers, of a geometry type that isn't known.
const OF_UNKNOWN_TYPE: &[u8] =
    b"\x1a\x16\x78\x02\x0a\x01a\x12\x0f\x18\x00\x22\x0b\x09\x00\x10\x1a\x14\x0f\x00\x14\x13\x13\x0f";

/// A layer of version 1, without features.
const OF_OTHER_VERSION: &[u8] = b"\x1a\x05\x78\x01\x0a\x01a";

/// The point twice.
const EQUAL_NAMES: &[u8] = b"\x1a\x0e\x78\x02\x0a\x01a\x12\x07\x18\x01\x22\x03\x09\x32\x22\
    \x1a\x0e\x78\x02\x0a\x01a\x12\x07\x18\x01\x22\x03\x09\x32\x22";

/// The point with tags 0 0 0 1, of one key and two values.
const KEY_AGAIN: &[u8] =
    b"\x1a\x1f\x78\x02\x0a\x01a\x12\x0d\x12\x04\x00\x00\x00\x01\x18\x01\x22\x03\x09\x32\x22\
    \x1a\x01k\x22\x02\x38\x01\x22\x02\x28\x05";

/// A ring with a LineTo that stays, and one along a line.
const NO_STEP: &[u8] =
    b"\x1a\x14\x78\x02\x0a\x01a\x12\x0d\x18\x03\x22\x09\x09\x00\x00\x12\x00\x00\x0a\x0a\x0f";

const NO_AREA: &[u8] =
    b"\x1a\x14\x78\x02\x0a\x01a\x12\x0d\x18\x03\x22\x09\x09\x00\x00\x12\x0a\x0a\x0a\x0a\x0f";

/// A square of 10, and a hole beside it.
const HOLE_BESIDE: &[u8] =
    b"\x1a\x21\x78\x02\x0a\x01a\x12\x1a\x18\x03\x22\x16\x09\x00\x00\x1a\x14\x00\x00\x14\x13\x00\x0f\
    \x09\x28\x13\x1a\x00\x14\x14\x00\x00\x13\x0f";

/// A square of 100, a hole from (10,10) to (90,90) and another one from (20,20) to (30,30).
const HOLE_IN_HOLE: &[u8] =
    b"\x1a\x34\x78\x02\x0a\x01a\x12\x2d\x18\x03\x22\x29\x09\x00\x00\x1a\xc8\x01\x00\x00\xc8\
    \x01\xc7\x01\x00\x0f\x09\x14\xb3\x01\x1a\x00\xa0\x01\xa0\x01\x00\x00\x9f\x01\x0f\x09\x8b\x01\x14\x1a\x00\x14\x14\x00\x00\x13\x0f";

/// A meeting of two edges, each by ring and edge, at a point (x, y, w).
fn meeting(
    layer: usize,
    polygon: usize,
    first: (usize, usize),
    second: (usize, usize),
    point: (i128, i128, i128),
) -> Fault {
    Fault::Meeting {
        layer,
        feature: 0,
        polygon,
        first: RingEdge {
            ring: first.0,
            edge: first.1,
        },
        second: RingEdge {
            ring: second.0,
            edge: second.1,
        },
        x: point.0,
        y: point.1,
        w: point.2,
    }
}

/// The fault of the one layer's one feature that a vertex of ring 2 is inside another hole.
fn hole_in(other: usize) -> Fault {
    Fault::HoleInHole {
        layer: 0,
        feature: 0,
        polygon: 0,
        ring: 2,
        vertex: 0,
        other,
    }
}

/// The fault of a tile whose layer goes past the end.
fn past_end(at: usize) -> Fault {
    Fault::Wire {
        code: WireCode::PastEnd,
        scope: Scope::Tile,
        at,
        field: 3,
    }
}

// Neighbours have the vertex between them in common.
#[test]
fn no_meeting_of_neighbours(rt: HostRuntime) {
    let (first, second) = ((0, 0), (0, 1));
    assert!(rt; !confirm(TRIANGLE, &meeting(0, 0, first, second, (8, 12, 1))));
    assert!(rt; !confirm(TRIANGLE, &meeting(0, 0, first, second, (8, 12, 0))));
    assert!(rt; !confirm(TRIANGLE, &meeting(5, 0, first, second, (8, 12, 1))));
}

// The point may be written in several ways, and the edges in one order.
#[test]
fn a_crossing(rt: HostRuntime) {
    let fault = meeting(0, 0, (0, 0), (0, 2), (800, 800, 180));
    assert!(rt; confirm(CROSSING, &fault));
    assert!(rt; confirm(CROSSING, &meeting(0, 0, (0, 0), (0, 2), (40, 40, 9))));
    assert!(rt; !confirm(CROSSING, &meeting(0, 0, (0, 0), (0, 2), (800, 800, 181))));
    assert!(rt; !confirm(CROSSING, &meeting(0, 0, (0, 2), (0, 0), (800, 800, 180))));
    assert!(rt; !confirm(TRIANGLE, &fault));
    assert!(rt; !confirm(OF_UNKNOWN_TYPE, &fault));
}

/// Whether the edges of these rings and ordinals cross wrongly in the ring that crosses itself, at
/// this point.
fn crosses(
    layer: usize,
    polygon: usize,
    first: (usize, usize),
    second: (usize, usize),
    point: (i128, i128, i128),
) -> bool {
    confirm(CROSSING, &meeting(layer, polygon, first, second, point))
}

// Numbers that no point of a meeting has.
#[test]
fn points_out_of_range(rt: HostRuntime) {
    let (first, second) = ((0, 0), (0, 2));
    assert!(rt; !crosses(0, 0, first, second, (800, 800, -1)));
    assert!(rt; !crosses(0, 0, first, second, (800, 800, 9223372036854775809)));
    assert!(rt; !crosses(0, 0, first, second, (i128::MIN, 800, 180)));
}

// The greatest ordinal, in each place.
#[test]
fn ordinals_out_of_range(rt: HostRuntime) {
    let most = usize::MAX;
    let point = (800, 800, 180);
    assert!(rt; !crosses(0, 0, (0, most), (0, 2), point));
    assert!(rt; !crosses(0, 0, (0, 0), (0, most), point));
    assert!(rt; !crosses(0, 0, (most, 0), (0, 2), point));
    assert!(rt; !crosses(0, 0, (0, 0), (most, 2), point));
    assert!(rt; !crosses(0, most, (0, 0), (0, 2), point));
    assert!(rt; !crosses(most, 0, (0, 0), (0, 2), point));
}

// The exterior is no hole, and no hole is inside itself.
#[test]
fn a_hole_in_a_hole(rt: HostRuntime) {
    assert!(rt; confirm(HOLE_IN_HOLE, &hole_in(1)));
    assert!(rt; !confirm(HOLE_IN_HOLE, &hole_in(0)));
    assert!(rt; !confirm(HOLE_IN_HOLE, &hole_in(2)));
    let outside = Fault::Outside {
        layer: 0,
        feature: 0,
        polygon: 0,
        ring: 0,
        vertex: 1,
    };
    assert!(rt; !confirm(HOLE_IN_HOLE, &outside));
}

// At its own offset in its own bytes alone.
#[test]
fn a_truncated_tile(rt: HostRuntime) {
    assert!(rt; confirm(TRUNCATED, &past_end(0)));
    assert!(rt; !confirm(TRUNCATED, &past_end(usize::MAX)));
    assert!(rt; !confirm(POINT, &past_end(0)));
}

/// One fault of each kind.
fn fault_of(number: usize) -> Fault {
    let (layer, feature) = (0, 0);
    match number {
        0 => past_end(0),
        1 => Fault::Version { layer },
        2 => Fault::Name {
            first: 0,
            second: 1,
        },
        3 => Fault::Tag {
            code: TagCode::Repeated,
            layer,
            feature,
            index: 2,
        },
        4 => Fault::Command {
            code: CommandCode::NoStep,
            layer,
            feature,
            index: 5,
        },
        5 => Fault::Ring {
            code: RingCode::NoArea,
            layer,
            feature,
            ring: 0,
        },
        6 => Fault::Outside {
            layer,
            feature,
            polygon: 0,
            ring: 1,
            vertex: 0,
        },
        _ => hole_in(1),
    }
}

/// Whether of these faults the one with this number is true of the bytes, and no other.
fn has_only(bytes: &[u8], number: usize) -> bool {
    for other in 0..8 {
        if confirm(bytes, &fault_of(other)) != (other == number) {
            return false;
        }
    }
    true
}

#[test]
fn one_fault_of_each_kind(rt: HostRuntime) {
    assert!(rt; has_only(TRUNCATED, 0));
    assert!(rt; has_only(OF_OTHER_VERSION, 1));
    assert!(rt; has_only(EQUAL_NAMES, 2));
    assert!(rt; has_only(KEY_AGAIN, 3));
    assert!(rt; has_only(NO_STEP, 4));
    assert!(rt; has_only(NO_AREA, 5));
    assert!(rt; has_only(HOLE_BESIDE, 6));
    assert!(rt; has_only(HOLE_IN_HOLE, 7));
}

/// Whether bytes have a wire fault, at its own place, of its own field and in its own scope alone,
/// and the point has none of them.
fn has_one(bytes: &[u8], code: WireCode, scope: Scope, at: usize, field: u32) -> bool {
    is_wire_fault(bytes, code, scope, at, field)
        && !is_wire_fault(bytes, code, scope, at.wrapping_add(1), field)
        && !is_wire_fault(bytes, code, scope, at, field.wrapping_add(1))
        && !is_wire_fault(bytes, code, Scope::Feature(0, 1), at, field)
        && !is_wire_fault(POINT, code, scope, at, field)
}

/// Whether this wire fault is confirmed.
fn is_wire_fault(bytes: &[u8], code: WireCode, scope: Scope, at: usize, field: u32) -> bool {
    let fault = Fault::Wire {
        code,
        scope,
        at,
        field,
    };
    confirm(bytes, &fault)
}

#[test]
fn wire_faults_of_a_tile(rt: HostRuntime) {
    assert!(rt; has_one(b"\x80", WireCode::Ends, Scope::Tile, 0, 0));
    assert!(rt; has_one(b"\x08", WireCode::Ends, Scope::Tile, 1, 1));
    assert!(rt; has_one(b"\x00", WireCode::BadNumber, Scope::Tile, 0, 0));
    assert!(rt; has_one(b"\x1b", WireCode::BadWireType, Scope::Tile, 0, 3));
    assert!(rt; has_one(TRUNCATED, WireCode::PastEnd, Scope::Tile, 0, 3));
}

#[test]
fn wire_faults_of_a_layer(rt: HostRuntime) {
    let scope = Scope::Layer(0);
    let of_other_type = b"\x1a\x06\x7a\x01\x02\x0a\x01a";
    assert!(rt; has_one(of_other_type, WireCode::OtherType, scope, 2, 15));
    let again = b"\x1a\x07\x78\x02\x78\x02\x0a\x01a";
    assert!(rt; has_one(again, WireCode::Again, scope, 4, 15));
    let no_name = b"\x1a\x02\x78\x02";
    assert!(rt; has_one(no_name, WireCode::Missing, scope, 4, 1));
    let no_text = b"\x1a\x05\x78\x02\x0a\x01\xff";
    assert!(rt; has_one(no_text, WireCode::NotUtf8, scope, 4, 1));
}

// The last number of a packed list is cut off.
#[test]
fn wire_faults_of_values_and_features(rt: HostRuntime) {
    let empty = b"\x1a\x07\x78\x02\x0a\x01a\x22\x00";
    assert!(rt; has_one(empty, WireCode::OneField, Scope::Value(0, 0), 9, 0));
    let scope = Scope::Feature(0, 0);
    let kind = b"\x1a\x0e\x78\x02\x0a\x01a\x12\x07\x18\x04\x22\x03\x09\x32\x22";
    assert!(rt; has_one(kind, WireCode::OutOfRange, scope, 10, 3));
    let cut = b"\x1a\x0e\x78\x02\x0a\x01a\x12\x07\x18\x01\x22\x03\x09\x32\xa2";
    assert!(rt; has_one(cut, WireCode::Ends, scope, 15, 4));
}
