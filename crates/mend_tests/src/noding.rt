//! Segments that are split where they meet.

use mvt_noding::node;
use mvt_plane::{Count, Edge, Point, common, sweep_key};
use mvt_segments::{Segment, Tally, Winding, Work};
use std::alloc::Global;
use std::process::Abort;

/// More than any of these tests takes.
const MUCH: u64 = 1_000_000;

/// The segment of an edge from one position to another, of this gain.
fn segment(rt: &impl Abort, from: (i32, i32), to: (i32, i32), exterior: i32) -> Segment {
    let a = Point::new(from.0, from.1).expect(rt, "in range");
    let b = Point::new(to.0, to.1).expect(rt, "in range");
    let gain = Winding { exterior, holes: 0 };
    let is_forward = sweep_key(a) < sweep_key(b);
    Segment {
        a: if is_forward { a } else { b },
        b: if is_forward { b } else { a },
        gain: if is_forward { gain } else { gain.negated() },
        source: 0,
        witness: 0,
    }
}

/// What comes of segments, and how many crossings were counted.
fn noded(rt: &impl Abort, alloc: Global, segments: &[Segment]) -> (Vec<Segment>, u64) {
    let mut tally = Tally {
        crossings: 0,
        cuts: 0,
    };
    let given = segments.to_vec(alloc).expect(rt, "memory");
    let noded = node(alloc, given, &mut Work::new(MUCH), &mut tally).expect(rt, "memory");
    (noded.expect(rt, "enough work"), tally.crossings)
}

#[test]
fn crosses_in_a_position(rt: HostRuntime) {
    let given = [
        segment(&rt, (0, 0), (4, 4), 1),
        segment(&rt, (0, 4), (4, 0), 2),
    ];
    let (noded, crossings) = noded(&rt, rt.alloc(), &given);
    let wanted = [
        segment(&rt, (0, 0), (2, 2), 1),
        segment(&rt, (0, 4), (2, 2), 2),
        segment(&rt, (2, 2), (4, 0), 2),
        segment(&rt, (2, 2), (4, 4), 1),
    ];
    assert_eq!(rt; noded.as_slice(), wanted.as_slice());
    assert_eq!(rt; crossings, 1);
}

/// They cross in (2, 1.2).
#[test]
fn crosses_near_a_position(rt: HostRuntime) {
    let given = [
        segment(&rt, (0, 0), (5, 3), 1),
        segment(&rt, (0, 2), (5, 0), 2),
    ];
    let (noded, crossings) = noded(&rt, rt.alloc(), &given);
    let wanted = [
        segment(&rt, (0, 0), (2, 1), 1),
        segment(&rt, (0, 2), (2, 1), 2),
        segment(&rt, (2, 1), (5, 0), 2),
        segment(&rt, (2, 1), (5, 3), 1),
    ];
    assert_eq!(rt; noded.as_slice(), wanted.as_slice());
    assert_eq!(rt; crossings, 1);
}

/// They cross in (-1.5, -0.5), to which four positions are equally near.
#[test]
fn crosses_between_positions(rt: HostRuntime) {
    let given = [
        segment(&rt, (-3, -1), (0, 0), 1),
        segment(&rt, (-3, 0), (0, -1), 2),
    ];
    let (noded, _) = noded(&rt, rt.alloc(), &given);
    let wanted = [
        segment(&rt, (-3, -1), (-1, 0), 1),
        segment(&rt, (-3, 0), (-1, 0), 2),
        segment(&rt, (-1, 0), (0, -1), 2),
        segment(&rt, (-1, 0), (0, 0), 1),
    ];
    assert_eq!(rt; noded.as_slice(), wanted.as_slice());
}

#[test]
fn ends_within_another(rt: HostRuntime) {
    let given = [
        segment(&rt, (0, 0), (4, 0), 1),
        segment(&rt, (2, 0), (3, 5), 2),
    ];
    let (noded, crossings) = noded(&rt, rt.alloc(), &given);
    let wanted = [
        segment(&rt, (0, 0), (2, 0), 1),
        segment(&rt, (2, 0), (3, 5), 2),
        segment(&rt, (2, 0), (4, 0), 1),
    ];
    assert_eq!(rt; noded.as_slice(), wanted.as_slice());
    assert_eq!(rt; crossings, 0);
}

#[test]
fn overlaps_along_a_line(rt: HostRuntime) {
    let given = [
        segment(&rt, (0, 0), (6, 3), 1),
        segment(&rt, (2, 1), (8, 4), 2),
    ];
    let (noded, crossings) = noded(&rt, rt.alloc(), &given);
    let wanted = [
        segment(&rt, (0, 0), (2, 1), 1),
        segment(&rt, (2, 1), (6, 3), 3),
        segment(&rt, (6, 3), (8, 4), 2),
    ];
    assert_eq!(rt; noded.as_slice(), wanted.as_slice());
    assert_eq!(rt; crossings, 0);
}

/// A part of the longer one is gone.
#[test]
fn overlaps_with_the_opposite_gain(rt: HostRuntime) {
    let given = [
        segment(&rt, (3, 0), (3, 9), 1),
        segment(&rt, (3, 7), (3, 4), 1),
    ];
    let (noded, _) = noded(&rt, rt.alloc(), &given);
    let wanted = [
        segment(&rt, (3, 0), (3, 4), 1),
        segment(&rt, (3, 7), (3, 9), 1),
    ];
    assert_eq!(rt; noded.as_slice(), wanted.as_slice());
}

#[test]
fn equal_ones_of_opposite_gain_vanish(rt: HostRuntime) {
    let given = [
        segment(&rt, (0, 0), (5, 2), 1),
        segment(&rt, (1, 1), (1, 1), 1),
        segment(&rt, (5, 2), (0, 0), 1),
    ];
    let (noded, crossings) = noded(&rt, rt.alloc(), &given);
    assert_eq!(rt; noded.len(), 0);
    assert_eq!(rt; crossings, 0);
}

#[test]
fn common_ends_stay(rt: HostRuntime) {
    let given = [
        segment(&rt, (0, 0), (4, 0), 1),
        segment(&rt, (4, 0), (4, 4), 1),
        segment(&rt, (0, 4), (4, 4), -1),
        segment(&rt, (0, 0), (0, 4), -1),
    ];
    let (noded, crossings) = noded(&rt, rt.alloc(), &given);
    let wanted = [given[3], given[0], given[2], given[1]];
    assert_eq!(rt; noded.as_slice(), wanted.as_slice());
    assert_eq!(rt; crossings, 0);
}

#[test]
fn three_cross_in_one_position(rt: HostRuntime) {
    let given = [
        segment(&rt, (0, 2), (4, 2), 1),
        segment(&rt, (2, 0), (2, 4), 2),
        segment(&rt, (0, 0), (4, 4), 3),
    ];
    let (noded, crossings) = noded(&rt, rt.alloc(), &given);
    let wanted = [
        segment(&rt, (0, 0), (2, 2), 3),
        segment(&rt, (0, 2), (2, 2), 1),
        segment(&rt, (2, 0), (2, 2), 2),
        segment(&rt, (2, 2), (2, 4), 2),
        segment(&rt, (2, 2), (4, 2), 1),
        segment(&rt, (2, 2), (4, 4), 3),
    ];
    assert_eq!(rt; noded.as_slice(), wanted.as_slice());
    assert_eq!(rt; crossings, 3);
}

/// The first two cross in (5, 1.5), which becomes (5, 2). So a piece of the first one now passes
/// above (3, 1), where the third one begins, and crosses that one in (3, 1.2).
#[test]
fn a_piece_meets_another_segment(rt: HostRuntime) {
    let given = [
        segment(&rt, (0, 0), (10, 3), 1),
        segment(&rt, (5, 0), (5, 3), 2),
        segment(&rt, (3, 1), (3, 4), 3),
    ];
    let (noded, crossings) = noded(&rt, rt.alloc(), &given);
    let wanted = [
        segment(&rt, (0, 0), (3, 1), 1),
        segment(&rt, (3, 1), (3, 4), 3),
        segment(&rt, (3, 1), (5, 2), 1),
        segment(&rt, (5, 0), (5, 2), 2),
        segment(&rt, (5, 2), (5, 3), 2),
        segment(&rt, (5, 2), (10, 3), 1),
    ];
    assert_eq!(rt; noded.as_slice(), wanted.as_slice());
    assert_eq!(rt; crossings, 2);
}

/// Where a falling segment is crossed twice near one x, its pieces follow it downwards: it is
/// crossed in (0.1, 90) and (0.3, 70).
#[test]
fn pieces_follow_a_steep_segment(rt: HostRuntime) {
    let given = [
        segment(&rt, (0, 100), (1, 0), 1),
        segment(&rt, (-1, 90), (2, 90), 2),
        segment(&rt, (-1, 70), (2, 70), 3),
    ];
    let (noded, crossings) = noded(&rt, rt.alloc(), &given);
    let wanted = [
        segment(&rt, (-1, 70), (0, 70), 3),
        segment(&rt, (-1, 90), (0, 90), 2),
        segment(&rt, (0, 70), (0, 90), -1),
        segment(&rt, (0, 70), (1, 0), 1),
        segment(&rt, (0, 70), (2, 70), 3),
        segment(&rt, (0, 90), (0, 100), -1),
        segment(&rt, (0, 90), (2, 90), 2),
    ];
    assert_eq!(rt; noded.as_slice(), wanted.as_slice());
    assert_eq!(rt; crossings, 2);
}

/// The first one stays, with the gains of all.
#[test]
fn equal_ones_are_one(rt: HostRuntime) {
    let given = [
        segment(&rt, (0, 0), (3, 1), 1),
        of_source(segment(&rt, (0, 0), (1, 3), 7), 1),
        of_source(segment(&rt, (0, 0), (3, 1), 1), 2),
        of_source(segment(&rt, (3, 1), (0, 0), 4), 3),
    ];
    let (noded, _) = noded(&rt, rt.alloc(), &given);
    let wanted = [
        of_source(segment(&rt, (0, 0), (1, 3), 7), 1),
        segment(&rt, (0, 0), (3, 1), -2),
    ];
    assert_eq!(rt; noded.as_slice(), wanted.as_slice());
}

/// A segment that comes of the ring of this number.
fn of_source(segment: Segment, source: u32) -> Segment {
    Segment { source, ..segment }
}

/// A ring that goes round twice and crosses itself eleven times.
const TWICE_ROUND: [(i32, i32); 24] = [
    (0, 0),
    (9, 1),
    (20, 0),
    (31, 2),
    (40, 10),
    (38, 20),
    (41, 30),
    (30, 39),
    (20, 41),
    (8, 40),
    (1, 30),
    (3, 21),
    (2, 9),
    (12, 3),
    (22, -2),
    (33, 5),
    (39, 14),
    (37, 25),
    (39, 36),
    (26, 38),
    (15, 43),
    (5, 36),
    (-2, 25),
    (4, 12),
];

#[test]
fn a_ring_over_itself(rt: HostRuntime) {
    let mut given = Vec::new(rt.alloc());
    let mut from = TWICE_ROUND[23];
    let mut witness = 0;
    for to in TWICE_ROUND {
        let mut edge = segment(&rt, from, to, 1);
        edge.witness = witness;
        given.push(edge).expect(&rt, "memory");
        from = to;
        witness = witness.wrapping_add(1);
    }
    let (noded, crossings) = noded(&rt, rt.alloc(), &given);
    assert!(rt; crossings >= 11);
    for (number, one) in noded.iter().enumerate() {
        for other in &noded[..number] {
            assert!(rt; are_apart(one, other));
        }
    }
}

/// Forty lines along each axis: each is cut in forty positions.
#[test]
fn a_grid_of_lines(rt: HostRuntime) {
    let mut given = Vec::new(rt.alloc());
    for line in 1..41 {
        given
            .push(segment(&rt, (line, 0), (line, 41), 1))
            .expect(&rt, "memory");
        given
            .push(segment(&rt, (0, line), (41, line), 2))
            .expect(&rt, "memory");
    }
    let (noded, crossings) = noded(&rt, rt.alloc(), &given);
    assert_eq!(rt; noded.len(), 2 * 40 * 41);
    assert_eq!(rt; crossings, 1600);
    for piece in &noded {
        let across = piece.a.x().wrapping_add(1) == piece.b.x() && piece.a.y() == piece.b.y();
        let upward = piece.a.y().wrapping_add(1) == piece.b.y() && piece.a.x() == piece.b.x();
        assert!(rt; across || upward);
    }
}

/// No two pieces of scattered segments have more in common than an end, by a test of each pair.
#[test]
fn nothing_else_is_in_common(rt: HostRuntime) {
    let mut given = Vec::new(rt.alloc());
    let mut state = 1_u64;
    for _ in 0..40 {
        let mut ends = [0, 0, 0, 0];
        for end in 0..4 {
            state = state
                .wrapping_mul(6_364_136_223_846_793_005)
                .wrapping_add(1_442_695_040_888_963_407);
            ends[end] = (state >> 57) as i32;
        }
        given
            .push(segment(&rt, (ends[0], ends[1]), (ends[2], ends[3]), 1))
            .expect(&rt, "memory");
    }
    let (noded, _) = noded(&rt, rt.alloc(), &given);
    assert!(rt; noded.len() > 100);
    for (number, one) in noded.iter().enumerate() {
        for other in &noded[..number] {
            assert!(rt; are_apart(one, other));
        }
    }
}

/// Whether two segments have no position in common but one end.
fn are_apart(one: &Segment, other: &Segment) -> bool {
    let e = Edge { a: one.a, b: one.b };
    let f = Edge {
        a: other.a,
        b: other.b,
    };
    let shared = [one.a, one.b]
        .into_iter()
        .find(|end| *end == other.a || *end == other.b);
    common(e, f, shared, &mut Count::new()).is_none()
}

/// Of twenty lines that cross each other all pairs are to be tested, which takes more than 100.
#[test]
fn gives_up_where_the_work_does_not_suffice(rt: HostRuntime) {
    let mut given = Vec::new(rt.alloc());
    for line in 0..20 {
        given
            .push(segment(&rt, (line, 0), (20_i32.wrapping_sub(line), 41), 1))
            .expect(&rt, "memory");
    }
    let mut tally = Tally {
        crossings: 0,
        cuts: 0,
    };
    let mut work = Work::new(100);
    let noded = node(rt.alloc(), given, &mut work, &mut tally).expect(&rt, "memory");
    assert!(rt; noded.is_none());
    assert_eq!(rt; work.left(), 0);
}
