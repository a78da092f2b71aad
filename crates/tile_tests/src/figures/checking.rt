//! Command faults.

use mvt_draw::command_fault;
use mvt_fault::CommandCode;
use mvt_tile::Kind;
use mvt_wire::ListedNumbers;

/// Whether the numbers have no command fault.
fn draw(kind: Kind, numbers: &[u32]) -> bool {
    command_fault(kind, ListedNumbers::new(numbers)).is_none()
}

/// Whether the numbers have this command fault, at this index.
fn fail(kind: Kind, numbers: &[u32], code: CommandCode, index: usize) -> bool {
    command_fault(kind, ListedNumbers::new(numbers)) == Some((code, index))
}

// A line has a LineTo, a ring one of two positions, and a ClosePath.
#[test]
fn commands(rt: HostRuntime) {
    assert!(rt; fail(Kind::LineString, &[], CommandCode::Unfinished, 0));
    assert!(rt; fail(Kind::LineString, &[9, 4, 4], CommandCode::Unfinished, 3));
    assert!(rt;
        fail(
            Kind::LineString,
            &[17, 4, 4, 2, 2],
            CommandCode::OtherCount,
            0
        )
    );
    let short = [9, 0, 0, 10, 2, 2, 15];
    assert!(rt; fail(Kind::Polygon, &short, CommandCode::OtherCount, 3));
    let unclosed = [9, 0, 0, 18, 2, 2, 2, 0];
    assert!(rt; fail(Kind::Polygon, &unclosed, CommandCode::Unfinished, 8));
    let closed = [9, 0, 0, 10, 2, 2, 15];
    assert!(rt; fail(Kind::LineString, &closed, CommandCode::OtherCommand, 6));
}

// The range of y coordinates, and the parameter that means -2^31. Those of x are in the tests of
// the whole gate.
#[test]
fn parameters(rt: HostRuntime) {
    assert!(rt; draw(Kind::Point, &[9, 0, 2_147_483_648]));
    assert!(rt;
        fail(
            Kind::Point,
            &[9, 0, 2_147_483_650],
            CommandCode::OutOfBounds,
            2
        )
    );
    assert!(rt;
        fail(
            Kind::Point,
            &[9, 0, 2_147_483_649],
            CommandCode::OutOfBounds,
            2
        )
    );
    assert!(rt;
        fail(
            Kind::Point,
            &[9, 0, 4_294_967_295],
            CommandCode::GreatestParameter,
            2
        )
    );
}

// A MoveTo may stay where the cursor is.
#[test]
fn steps_of_nothing(rt: HostRuntime) {
    let point_twice = [17, 10, 14, 0, 0];
    assert!(rt; draw(Kind::Point, &point_twice));
    let rings = [9, 0, 0, 18, 20, 0, 0, 20, 15, 9, 0, 0, 18, 20, 0, 0, 20, 15];
    assert!(rt; draw(Kind::Polygon, &rings));
}

// Two parameters that are read at once: both small, one small and one large, one left over, a step
// that stays, and steps from near the greatest coordinate to it and out of the range.
#[test]
fn pairs_of_parameters(rt: HostRuntime) {
    assert!(rt; draw(Kind::Point, &[25, 127, 126, 128, 16_383, 127, 16_384]));
    assert!(rt; fail(Kind::Point, &[17, 2, 2, 4], CommandCode::Unfinished, 4));
    for still in [&[9, 0, 0, 18, 2, 2, 0, 0], &[9, 300, 2, 18, 0, 300, 0, 0]] {
        assert!(rt; fail(Kind::LineString, still, CommandCode::NoStep, 7));
    }
    // two less than the greatest
    let near = 2_147_483_644;
    assert!(rt; draw(Kind::Point, &[17, near, near, 4, 4]));
    assert!(rt;
        fail(
            Kind::Point,
            &[17, near, 2, 6, 6],
            CommandCode::OutOfBounds,
            3
        )
    );
    assert!(rt;
        fail(
            Kind::Point,
            &[17, 2, near, 6, 6],
            CommandCode::OutOfBounds,
            4
        )
    );
    assert!(rt;
        fail(
            Kind::Point,
            &[17, near, near, 600, 0],
            CommandCode::OutOfBounds,
            3
        )
    );
    assert!(rt;
        fail(
            Kind::Point,
            &[17, near + 1, near, 0, 300],
            CommandCode::OutOfBounds,
            4
        )
    );
}

// Lines whose parameters together lead further than any coordinate, though each position is in the
// range; one that leaves it by its last step; and a second line that does by its first.
#[test]
fn far_lines(rt: HostRuntime) {
    // 2^30 to the right, and as far back
    let (right, left) = (2_147_483_648, 2_147_483_647);
    assert!(rt; draw(Kind::LineString, &[9, right, 0, 18, left, 0, right, 0]));
    assert!(rt;
        draw(
            Kind::LineString,
            &[9, right, right, 10, left, left, 9, left, left, 10, 2, 0]
        )
    );
    assert!(rt;
        fail(
            Kind::LineString,
            &[9, right, 0, 18, left, 0, left + 2, 0],
            CommandCode::OutOfBounds,
            6
        )
    );
    assert!(rt;
        fail(
            Kind::LineString,
            &[9, 0, right, 10, 2, left, 9, right, 2],
            CommandCode::OutOfBounds,
            7
        )
    );
}

// The cursor stays at a ring's last position when the ring is closed, here at the greatest x: from
// the ring's start, the next step would be in range.
#[test]
fn next_ring_from_the_last_position(rt: HostRuntime) {
    let numbers = [9, 0, 0, 18, 2_147_483_648, 0, 0, 2, 15, 9, 2];
    assert!(rt; fail(Kind::Polygon, &numbers, CommandCode::OutOfBounds, 10));
}
