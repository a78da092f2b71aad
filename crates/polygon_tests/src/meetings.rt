//! Meetings in drawn rings, found by each way there is, and the work that was counted.
ghost use Rattle.std.specs.Prelude.{◌<◌, ◌≤◌};
ghost use Rattle.mvt_sweep.specs.Rings.{rings_of, AreProperRings};

mod generated;
mod large;

use crate::rings::{
    Coordinates, FRAME, HOLE_ACROSS, HOLE_BESIDE, HOLE_IN_HOLE, HOLE_OF_FRAME, NOTCHED, SQUARE,
    ring_at, rings_at,
};
use mvt_plane::{Count, Point, twice_area};
use mvt_status::{TreeStatus, VecStatus};
use mvt_sweep::{Meeting, are_proper, find_meeting, find_meeting_with, self_intersection};
use std::alloc::Global;
use std::process::Abort;

/// Two edges, each by ring and edge.
pub(crate) type Edges = ((usize, usize), (usize, usize));

/// A way to search for a meeting.
#[derive(Clone, Copy)]
enum Way {
    Whole,
    SweepOverTree,
    SweepOverVector,
}

const WAYS: [Way; 3] = [Way::Whole, Way::SweepOverTree, Way::SweepOverVector];

/// What is found in drawn rings in this way, and the work of it.
fn found_in(
    rt: &impl Abort,
    alloc: Global,
    rings: &[Vec<Point>],
    way: Way,
) -> (Option<Meeting>, Count)
    requires { AreProperRings (rings_of rings.now) }
{
    let mut count = Count::new();
    let found = match way {
        Way::Whole => find_meeting(alloc, rings, &mut count),
        Way::SweepOverTree => {
            find_meeting_with(alloc, rings, &mut TreeStatus::new(alloc), &mut count)
        }
        Way::SweepOverVector => {
            find_meeting_with(alloc, rings, &mut VecStatus::new(alloc), &mut count)
        }
    };
    (found.expect(rt, "memory"), count)
}

/// The same in rings through these coordinates.
fn found_at(
    rt: &impl Abort,
    alloc: Global,
    coordinates: &[&[(i32, i32)]],
    way: Way,
) -> (Option<Meeting>, Count) {
    let rings = rings_at(rt, alloc, coordinates);
    assert!(rt; are_proper(&rings));
    found_in(rt, alloc, &rings, way)
}

/// What is found in the only ring, through these coordinates.
fn found_in_ring(rt: &impl Abort, alloc: Global, ring: &[(i32, i32)]) -> Option<Meeting> {
    let rings = rings_at(rt, alloc, &[ring]);
    assert!(rt; rings.len() == 1 && are_proper(&rings));
    self_intersection(alloc, &rings, &mut Count::new()).expect(rt, "memory")
}

/// Whether a meeting is found in rings through these coordinates in each way, or where `is_clear`
/// in none.
fn agree(rt: &impl Abort, alloc: Global, coordinates: &[&[(i32, i32)]], is_clear: bool) -> bool {
    for way in WAYS {
        if found_at(rt, alloc, coordinates, way).0.is_none() != is_clear {
            return false;
        }
    }
    true
}

/// Whether each way finds a meeting of one of these pairs of edges, with this point, in rings
/// through these coordinates.
fn meets(
    rt: &impl Abort,
    alloc: Global,
    coordinates: &[&[(i32, i32)]],
    pairs: &[Edges],
    point: (i128, i128, i128),
) -> bool {
    for way in WAYS {
        if !is_one_of(found_at(rt, alloc, coordinates, way).0, pairs, point) {
            return false;
        }
    }
    true
}

/// Whether a meeting is that of one of these pairs of edges, with this point.
pub(crate) fn is_one_of(
    found: Option<Meeting>,
    pairs: &[Edges],
    point: (i128, i128, i128),
) -> bool {
    match found {
        Some(meeting) => {
            let first = (meeting.first_ring, meeting.first_edge);
            let second = (meeting.second_ring, meeting.second_edge);
            let at = meeting.point;
            pairs.contains(&(first, second)) && (at.x(), at.y(), at.w()) == point
        }
        None => false,
    }
}

/// The polygons of Mapbox Vector Tile Specification 2.1, section 4.3.5.5 and 4.3.5.6, holes where
/// they shouldn't be, and no rings.
const CLEAR: &[&[Coordinates]] = &[
    &[&[(3, 6), (8, 12), (20, 34)]],
    &[SQUARE],
    &[FRAME, HOLE_OF_FRAME],
    &[SQUARE, HOLE_BESIDE],
    HOLE_IN_HOLE,
    &[],
];

/// A hole whose vertices are all inside the exterior, and two equal rings.
const WRONG: &[&[Coordinates]] = &[
    &[NOTCHED, HOLE_ACROSS],
    &[&[(0, 0), (10, 0), (0, 10)], &[(0, 0), (10, 0), (0, 10)]],
];

/// Rings, the pairs of edges of which any may be found, and the point.
const MEETINGS: &[(&[Coordinates], &[Edges], (i128, i128, i128))] = &[
    // Crossings in one ring, also at the greatest coordinates.
    (
        &[&[(0, 8), (10, 0), (10, 10), (0, 0)]],
        &[((0, 0), (0, 2))],
        (800, 800, 180),
    ),
    (
        &[&[
            (-1_073_741_824, 1_073_741_822),
            (1_073_741_823, -1_073_741_824),
            (1_073_741_823, 1_073_741_823),
            (-1_073_741_824, -1_073_741_824),
        ]],
        &[((0, 0), (0, 2))],
        (
            -6_917_529_020_124_889_090,
            -6_917_529_020_124_889_090,
            9_223_372_026_117_357_571,
        ),
    ),
    // Edges that become neighbours after a hole.
    (
        &[
            &[(0, 80), (100, 0), (100, 100), (20, 10)],
            &[(10, 60), (30, 50), (30, 45)],
        ],
        &[((0, 0), (0, 2))],
        (740_000, 640_000, 15_400),
    ),
    // A vertex on an edge, and a vertex of a hole on an edge.
    (
        &[&[(0, 0), (10, 0), (10, 10), (10, 5)]],
        &[((0, 1), (0, 2)), ((0, 1), (0, 3))],
        (10, 5, 1),
    ),
    (
        &[SQUARE, &[(0, 5), (3, 7), (3, 3)]],
        &[((0, 3), (1, 0)), ((0, 3), (1, 2))],
        (0, 5, 1),
    ),
    // Two vertices of a ring at one position.
    (
        &[&[(0, 0), (10, 0), (5, 5), (10, 10), (0, 10), (5, 5)]],
        &[
            ((0, 1), (0, 4)),
            ((0, 1), (0, 5)),
            ((0, 2), (0, 4)),
            ((0, 2), (0, 5)),
        ],
        (5, 5, 1),
    ),
    // Neighbours on one line, of which one goes back.
    (
        &[&[(0, 0), (10, 0), (5, 0)]],
        &[((0, 0), (0, 1)), ((0, 0), (0, 2))],
        (5, 0, 1),
    ),
];

/// Eight teeth as long diagonals, all in the bounds of each other.
const SLANTED: Coordinates = &[
    (0, 0),
    (200, 200),
    (198, 200),
    (-2, 0),
    (-4, 0),
    (196, 200),
    (194, 200),
    (-6, 0),
    (-8, 0),
    (192, 200),
    (190, 200),
    (-10, 0),
    (-12, 0),
    (188, 200),
    (186, 200),
    (-14, 0),
    (-16, 0),
    (184, 200),
    (182, 200),
    (-18, 0),
    (-20, 0),
    (180, 200),
    (178, 200),
    (-22, 0),
    (-24, 0),
    (176, 200),
    (174, 200),
    (-26, 0),
    (-28, 0),
    (172, 200),
    (170, 200),
    (-30, 0),
    (-32, -5),
    (2, -5),
];

/// The same with the end of the fourth tooth moved across the third one.
fn slanted_across(rt: &impl Abort, alloc: Global) -> Vec<(i32, i32)> {
    let mut ring = Vec::with_capacity(alloc, SLANTED.len()).expect(rt, "memory");
    for (number, vertex) in SLANTED.iter().enumerate() {
        let moved = if number == 13 { (205, 200) } else { *vertex };
        ring.push(moved).expect(rt, "memory");
    }
    ring
}

// All bounds of edges overlap.
#[test]
fn some_edges_in_the_bounds_of_each_other(rt: HostRuntime) {
    assert!(rt; found_in_ring(&rt, rt.alloc(), SLANTED).is_none());
    let across = slanted_across(&rt, rt.alloc());
    assert!(rt; found_in_ring(&rt, rt.alloc(), &across).is_some());
    assert!(rt; agree(&rt, rt.alloc(), &[SLANTED], true));
    assert!(rt; agree(&rt, rt.alloc(), &[&across], false));
}

#[test]
fn rings_with_and_without_meetings(rt: HostRuntime) {
    for rings in CLEAR {
        assert!(rt; agree(&rt, rt.alloc(), rings, true));
    }
    for rings in WRONG {
        assert!(rt; agree(&rt, rt.alloc(), rings, false));
    }
}

#[test]
fn named_meetings(rt: HostRuntime) {
    for &(rings, pairs, point) in MEETINGS {
        assert!(rt; meets(&rt, rt.alloc(), rings, pairs, point));
        if rings.len() == 1 {
            assert!(rt; is_one_of(found_in_ring(&rt, rt.alloc(), rings[0]), pairs, point));
        }
    }
}

/// A ring like two combs, one above the other, with so many vertices each and this vertex at the
/// end of the upper comb's 21st tooth. 40 teeth make 158 vertices.
fn combs(rt: &impl Abort, alloc: Global, vertices: u32, moved: (i32, i32)) -> Vec<(i32, i32)>
    requires { vertices ≤ 800000 }
{
    let mut ring = Vec::new(alloc);
    for number in 0..vertices {
        ring.push(of_comb(number, -20, -10)).expect(rt, "memory");
    }
    for number in (0..vertices).rev() {
        let vertex = if number == 80 {
            moved
        } else {
            of_comb(number, 20, 10)
        };
        ring.push(vertex).expect(rt, "memory");
    }
    ring
}

/// A vertex of a comb, counted from left to right: of each tooth two at its end, and then two of
/// the gap after it.
fn of_comb(number: u32, end: i32, gap: i32) -> (i32, i32)
    requires { number < 800000 }
{
    let x = (number + 1) / 2 * 2;
    (x as i32, if number % 4 < 2 { end } else { gap })
}

/// Whether something was done, so often at most.
pub(crate) fn is_some_work(ticks: u64, most: u64) -> bool {
    0 < ticks && ticks <= most
}

/// Whether the work of each way in the ring is at most 3 tests, 20 probes and 180 visits for each
/// of 316 vertices; a status in a vector has no nodes.
fn is_work_of_combs(rt: &impl Abort, alloc: Global, ring: &[(i32, i32)]) -> bool {
    for way in WAYS {
        let (_, count) = found_at(rt, alloc, &[ring], way);
        let are_right_visits = match way {
            Way::SweepOverVector => count.visits() == 0,
            _ => is_some_work(count.visits(), 56880),
        };
        if !(is_some_work(count.tests(), 948)
            && is_some_work(count.probes(), 6320)
            && are_right_visits)
        {
            return false;
        }
    }
    true
}

// Many edges above each other, and the same with a vertex moved across an edge.
#[test]
fn two_combs(rt: HostRuntime) {
    let alloc = rt.alloc();
    let ring = combs(&rt, alloc, 158, (80, 20));
    assert!(rt; ring.len() == 316);
    assert!(rt; twice_area(&ring_at(&rt, alloc, &ring)) == 9520);
    assert!(rt; agree(&rt, alloc, &[&ring], true));
    assert!(rt; is_work_of_combs(&rt, alloc, &ring));
    let crossed = combs(&rt, alloc, 158, (77, 15));
    assert!(rt; twice_area(&ring_at(&rt, alloc, &crossed)) == 9540);
    assert!(rt; agree(&rt, alloc, &[&crossed], false));
}

// Each of a square's edges begins or ends in a vertex, where it is compared with another one or
// with a neighbour.
#[test]
fn work_of_a_square(rt: HostRuntime) {
    for way in WAYS {
        let (found, count) = found_at(&rt, rt.alloc(), &[SQUARE], way);
        assert!(rt; found.is_none());
        assert!(rt; is_some_work(count.tests(), 12) && 4 <= count.probes() && count.probes() <= 32);
    }
}

// No edges, so no work.
#[test]
fn no_rings(rt: HostRuntime) {
    for way in WAYS {
        let (_, count) = found_at(&rt, rt.alloc(), &[], way);
        assert!(rt; count.tests() == 0 && count.probes() == 0);
    }
}
