use crate::{
    CommandCode, Fault, Place, RingCode, RingEdge, Scope, TagCode, code, fault_text, place,
};
use mvt_wire::WireCode;
use std::alloc::Global;

fn wire(code: WireCode, scope: Scope, at: usize, field: u32) -> Fault {
    Fault::Wire {
        code,
        scope,
        at,
        field,
    }
}

#[test]
fn numbers_each_cause(rt: HostRuntime) {
    for (cause, number) in [
        (WireCode::Ends, 101),
        (WireCode::TooLong, 102),
        (WireCode::BadNumber, 103),
        (WireCode::BadWireType, 104),
        (WireCode::PastEnd, 105),
        (WireCode::OtherType, 106),
        (WireCode::Again, 107),
        (WireCode::Missing, 108),
        (WireCode::OneField, 109),
        (WireCode::NotUtf8, 110),
        (WireCode::OutOfRange, 111),
    ] {
        assert!(rt; code(&wire(cause, Scope::Layer(0), 0, 0)) == number);
    }
}

fn command(code: CommandCode, layer: usize, feature: usize, index: usize) -> Fault {
    Fault::Command {
        code,
        layer,
        feature,
        index,
    }
}

fn tag(code: TagCode, layer: usize, feature: usize, index: usize) -> Fault {
    Fault::Tag {
        code,
        layer,
        feature,
        index,
    }
}

fn ring(code: RingCode, layer: usize, feature: usize, ring: usize) -> Fault {
    Fault::Ring {
        code,
        layer,
        feature,
        ring,
    }
}

// Edges 0 and 2 of the polygon's first ring meet.
fn meeting(polygon: usize, ring: usize, x: i128, y: i128, w: i128) -> Fault {
    Fault::Meeting {
        layer: 0,
        feature: 0,
        polygon,
        first: RingEdge { ring, edge: 0 },
        second: RingEdge { ring, edge: 2 },
        x,
        y,
        w,
    }
}

fn outside(polygon: usize, ring: usize, vertex: usize) -> Fault {
    Fault::Outside {
        layer: 0,
        feature: 0,
        polygon,
        ring,
        vertex,
    }
}

fn hole_in_hole(polygon: usize, ring: usize, vertex: usize, other: usize) -> Fault {
    Fault::HoleInHole {
        layer: 0,
        feature: 0,
        polygon,
        ring,
        vertex,
        other,
    }
}

fn in_polygon(polygon: usize, vertex: usize, other: usize) -> Fault {
    Fault::InPolygon {
        layer: 0,
        feature: 0,
        polygon,
        vertex,
        other,
    }
}

/// Whether these are the fault's number and its text.
fn is_written(alloc: Global, fault: &Fault, number: u16, text: &str) -> bool {
    code(fault) == number && fault_text(alloc, fault).is_ok_and(|written| written.as_str() == text)
}

// Texts of faults of small ordinals are in the tests of the whole gate.
#[test]
fn writes_faults(rt: HostRuntime) {
    for (fault, number, text) in [
        (
            tag(TagCode::NoKey, 5, 6, 0),
            302,
            "{\"code\":302,\"feature\":6,\"index\":0,\"layer\":5}",
        ),
        (
            command(CommandCode::NoStep, 5, 6, 5),
            406,
            "{\"code\":406,\"feature\":6,\"index\":5,\"layer\":5}",
        ),
        (
            ring(RingCode::EndsAtItsBeginning, 5, 6, 7),
            501,
            "{\"code\":501,\"feature\":6,\"layer\":5,\"ring\":7}",
        ),
        (
            in_polygon(7, 8, 9),
            507,
            "{\"code\":507,\"feature\":0,\"layer\":0,\"other\":9,\"polygon\":7,\"vertex\":8}",
        ),
    ] {
        assert!(rt; is_written(rt.alloc(), &fault, number, text));
    }
}

#[test]
fn numbers_each_cause_of_features(rt: HostRuntime) {
    for (fault, number) in [
        (tag(TagCode::OddLength, 0, 0, 0), 301),
        (tag(TagCode::NoValue, 0, 0, 0), 303),
        (tag(TagCode::Repeated, 0, 0, 0), 304),
        (command(CommandCode::OtherCommand, 0, 0, 0), 401),
        (command(CommandCode::OtherCount, 0, 0, 0), 402),
        (command(CommandCode::Unfinished, 0, 0, 0), 403),
        (command(CommandCode::GreatestParameter, 0, 0, 0), 404),
        (command(CommandCode::OutOfBounds, 0, 0, 0), 405),
        (ring(RingCode::NoArea, 0, 0, 0), 502),
        (ring(RingCode::BeginsWithHole, 0, 0, 0), 503),
    ] {
        assert!(rt; code(&fault) == number);
    }
}

// The numbers of the fault's place.
#[test]
fn places_each_rule(rt: HostRuntime) {
    for (fault, numbers) in [
        (
            wire(WireCode::PastEnd, Scope::Tile, 0, 3),
            [0, 0, 0, 0, 0, 0, 105, 3, 0, 0],
        ),
        (
            wire(WireCode::TooLong, Scope::Layer(0), 3, 15),
            [0, 1, 0, 0, 0, 3, 102, 15, 0, 0],
        ),
        (
            wire(WireCode::OneField, Scope::Value(5, 6), 9, 0),
            [0, 1, 5, 1, 6, 9, 109, 0, 0, 0],
        ),
        (
            wire(WireCode::Ends, Scope::Feature(7, 8), 15, 4),
            [0, 1, 7, 2, 8, 15, 101, 4, 0, 0],
        ),
        (
            Fault::Version { layer: 5 },
            [1, 5, 201, 0, 0, 0, 0, 0, 0, 0],
        ),
        (
            Fault::Name {
                first: 5,
                second: 6,
            },
            [1, 6, 202, 5, 0, 0, 0, 0, 0, 0],
        ),
        (
            tag(TagCode::NoValue, 5, 6, 7),
            [2, 5, 6, 0, 7, 303, 0, 0, 0, 0],
        ),
        (
            command(CommandCode::NoStep, 5, 6, 7),
            [2, 5, 6, 1, 7, 406, 0, 0, 0, 0],
        ),
        (
            ring(RingCode::NoArea, 5, 6, 7),
            [2, 5, 6, 2, 7, 502, 0, 0, 0, 0],
        ),
        (
            meeting(7, 8, -800, 800, 180),
            [2, 0, 0, 3, 7, 0, 0, 0, 0, 0],
        ),
        (outside(7, 8, 9), [2, 0, 0, 3, 7, 1, 8, 9, 505, 0]),
        (hole_in_hole(7, 8, 9, 6), [2, 0, 0, 3, 7, 1, 8, 9, 506, 6]),
        (in_polygon(7, 8, 9), [2, 0, 0, 3, 7, 2, 8, 507, 9, 0]),
    ] {
        assert!(rt; place(&fault) == Place::new(numbers));
    }
}

#[test]
fn places_meetings_of_one_polygon_alike(rt: HostRuntime) {
    let (fault, other) = (meeting(7, 8, -800, 800, 180), meeting(7, 9, 3, 4, 1));
    assert!(rt; fault != other);
    assert!(rt; place(&fault) == place(&other));
}

fn comes_before(fault: &Fault, other: &Fault) -> bool {
    place(fault) < place(other) && !(place(other) <= place(fault))
}

// Each comes before the next: the first number that differs is greater there.
#[test]
fn orders_faults(rt: HostRuntime) {
    let faults = [
        wire(WireCode::Ends, Scope::Tile, 0, 8),
        wire(WireCode::Ends, Scope::Tile, 0, 9),
        wire(WireCode::TooLong, Scope::Tile, 0, 8),
        wire(WireCode::Ends, Scope::Tile, 1, 7),
        wire(WireCode::Ends, Scope::Layer(0), 0, 6),
        wire(WireCode::OutOfRange, Scope::Layer(0), 9, 15),
        wire(WireCode::Missing, Scope::Value(0, 0), 8, 5),
        wire(WireCode::Again, Scope::Value(0, 1), 7, 4),
        wire(WireCode::OtherType, Scope::Feature(0, 0), 6, 3),
        wire(WireCode::PastEnd, Scope::Feature(0, 1), 5, 2),
        wire(WireCode::BadWireType, Scope::Layer(1), 4, 1),
        wire(WireCode::BadNumber, Scope::Value(1, 0), 3, 0),
        Fault::Version { layer: 2 },
        Fault::Name {
            first: 7,
            second: 2,
        },
        Fault::Name {
            first: 8,
            second: 2,
        },
        Fault::Version { layer: 3 },
        command(CommandCode::NoStep, 0, 0, 9),
        ring(RingCode::BeginsWithHole, 0, 0, 0),
        ring(RingCode::EndsAtItsBeginning, 0, 0, 8),
        ring(RingCode::NoArea, 0, 0, 8),
        meeting(0, 7, 8, 9, 1),
        outside(0, 1, 6),
        hole_in_hole(0, 1, 6, 3),
        hole_in_hole(0, 1, 6, 4),
        outside(0, 1, 7),
        hole_in_hole(0, 2, 0, 1),
        in_polygon(0, 0, 2),
        in_polygon(0, 0, 3),
        in_polygon(0, 1, 1),
        meeting(1, 4, -3, -2, 1),
        outside(1, 4, 5),
        tag(TagCode::Repeated, 0, 3, 4),
        tag(TagCode::NoKey, 0, 3, 5),
        tag(TagCode::Repeated, 0, 3, 5),
        tag(TagCode::OddLength, 0, 3, 9),
        command(CommandCode::NoStep, 0, 3, 4),
        command(CommandCode::OtherCommand, 0, 3, 5),
        command(CommandCode::OtherCount, 0, 3, 5),
        tag(TagCode::NoKey, 0, 4, 0),
        tag(TagCode::OddLength, 1, 0, 0),
    ];
    for pair in faults.windows(2) {
        assert!(rt; comes_before(&pair[0], &pair[1]));
    }
}
