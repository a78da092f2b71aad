//! Rings that touch, and what is left of them when corners were cut, worked out by hand.

mod generated;

use mvt_overlay::{Apart, Outlines, add_polygons_apart, add_polygons_shrunk};
use mvt_plane::{Point, twice_area};
use mvt_segments::{HalfEdge, Keyed, Tally, Work};
use std::alloc::Global;
use std::process::Abort;

/// The vertices of a ring.
type Coordinates = &'static [(i32, i32)];

/// The rings of polygons.
type Polygons = &'static [&'static [Coordinates]];

/// Rings, and what they become.
#[derive(Clone, Copy)]
struct Example {
    /// Of each ring its source and its vertices, with what is filled on the left.
    rings: &'static [(u32, Coordinates)],
    /// What is left by `polygon`, and after how many cuts.
    by_polygon: (Polygons, u64),
    /// What is left by `feature`, and after how many cuts.
    by_feature: (Polygons, u64),
}

const BELOW: Coordinates = &[(0, 0), (20, 0), (10, 10)];

const ABOVE: Coordinates = &[(0, 20), (10, 10), (20, 20)];

/// Two triangles with one vertex in common, each of another polygon. The lower one loses its
/// corner: of its cone, a quarter turn, (-1, -1), (0, -1) and (1, -1) are nearest to the tip.
const TWO_TRIANGLES: Example = Example {
    rings: &[(0, BELOW), (1, ABOVE)],
    by_polygon: (&[&[BELOW], &[ABOVE]], 0),
    by_feature: (&[&[&[(0, 0), (20, 0), (11, 9), (9, 9)]], &[ABOVE]], 1),
};

const SHORE: Coordinates = &[(0, 0), (20, 0), (20, 20), (0, 20), (0, 10)];

/// A lake that touches the shore. Its corner there is filled: of its cone, from (5, -2) to (5, 2),
/// (1, 0) is nearest to the tip.
const LAKE_AT_THE_SHORE: Example = Example {
    rings: &[(0, SHORE), (0, &[(0, 10), (10, 14), (10, 6)])],
    by_polygon: (
        &[&[SHORE, &[(1, 10), (5, 12), (10, 14), (10, 6), (5, 8)]]],
        1,
    ),
    by_feature: (
        &[&[SHORE, &[(1, 10), (5, 12), (10, 14), (10, 6), (5, 8)]]],
        1,
    ),
};

const SQUARE: Coordinates = &[(0, 0), (40, 0), (40, 40), (0, 40)];

/// Two lakes that touch. The right one loses its corner: of its cone, from (5, -1) to (5, 1), (1, 0)
/// is nearest to the tip.
const TWO_LAKES: Example = Example {
    rings: &[
        (0, SQUARE),
        (0, &[(20, 20), (10, 18), (10, 22)]),
        (0, &[(20, 20), (30, 22), (30, 18)]),
    ],
    by_polygon: (
        &[&[
            SQUARE,
            &[(10, 18), (10, 22), (20, 20)],
            &[(21, 20), (25, 21), (30, 22), (30, 18), (25, 19)],
        ]],
        1,
    ),
    by_feature: (
        &[&[
            SQUARE,
            &[(10, 18), (10, 22), (20, 20)],
            &[(21, 20), (25, 21), (30, 22), (30, 18), (25, 19)],
        ]],
        1,
    ),
};

/// A ring that goes through one position twice. By `polygon` it falls into two polygons that touch;
/// by `feature` it is one river, which is made wider there.
const PINCHED: Example = Example {
    rings: &[(0, &[(0, 0), (20, 0), (10, 10), (20, 20), (0, 20), (10, 10)])],
    by_polygon: (&[&[BELOW], &[ABOVE]], 0),
    by_feature: (
        &[&[&[
            (0, 0),
            (20, 0),
            (11, 9),
            (11, 11),
            (20, 20),
            (0, 20),
            (10, 10),
        ]]],
        1,
    ),
};

const LOWER_LEFT: Coordinates = &[(0, 0), (10, 0), (10, 10), (0, 10)];

const UPPER_RIGHT: Coordinates = &[(10, 10), (20, 10), (20, 20), (10, 20)];

/// Two squares of a checkerboard.
const CHECKERBOARD: Example = Example {
    rings: &[(0, LOWER_LEFT), (1, UPPER_RIGHT)],
    by_polygon: (&[&[LOWER_LEFT], &[UPPER_RIGHT]], 0),
    by_feature: (
        &[
            &[&[(0, 0), (10, 0), (10, 9), (9, 10), (0, 10)]],
            &[UPPER_RIGHT],
        ],
        1,
    ),
};

/// Two triangles of half a square of the grid: each would vanish if its corner were cut, so they are
/// joined.
const SMALL_TRIANGLES: Example = Example {
    rings: &[
        (0, &[(0, 0), (1, 0), (0, 1)]),
        (1, &[(0, 0), (-1, 0), (0, -1)]),
    ],
    by_polygon: (
        &[&[&[(-1, 0), (0, -1), (0, 0)]], &[&[(0, 0), (1, 0), (0, 1)]]],
        0,
    ),
    by_feature: (&[&[&[(-1, 0), (0, -1), (1, 0), (0, 1), (0, 0)]]], 1),
};

/// As two triangles, with a lake in the lower one whose vertex is where its corner is cut: in a
/// second round the lake's own corner is filled there.
const LAKE_BELOW_THE_CORNER: Example = Example {
    rings: &[(0, BELOW), (0, &[(10, 9), (11, 7), (9, 7)]), (1, ABOVE)],
    by_polygon: (&[&[BELOW, &[(9, 7), (10, 9), (11, 7)]], &[ABOVE]], 0),
    by_feature: (
        &[
            &[
                &[(0, 0), (20, 0), (11, 9), (10, 9), (9, 9)],
                &[(9, 7), (10, 8), (11, 7)],
            ],
            &[ABOVE],
        ],
        2,
    ),
};

/// An island in a lake, and a second lake above the first one.
const ISLAND: Example = Example {
    rings: &[
        (0, SQUARE),
        (0, &[(10, 10), (10, 20), (30, 20), (30, 10)]),
        (1, &[(15, 12), (25, 12), (25, 18), (15, 18)]),
        (0, &[(12, 30), (12, 35), (28, 35), (28, 30)]),
    ],
    by_polygon: (ISLAND_APART, 0),
    by_feature: (ISLAND_APART, 0),
};

const ISLAND_APART: Polygons = &[
    &[
        SQUARE,
        &[(10, 10), (10, 20), (30, 20), (30, 10)],
        &[(12, 30), (12, 35), (28, 35), (28, 30)],
    ],
    &[&[(15, 12), (25, 12), (25, 18), (15, 18)]],
];

const EXAMPLES: [Example; 8] = [
    TWO_TRIANGLES,
    LAKE_AT_THE_SHORE,
    TWO_LAKES,
    PINCHED,
    CHECKERBOARD,
    SMALL_TRIANGLES,
    LAKE_BELOW_THE_CORNER,
    ISLAND,
];

/// The position at these coordinates.
fn at(rt: &impl Abort, coordinates: (i32, i32)) -> Point {
    Point::new(coordinates.0, coordinates.1).expect(rt, "a position")
}

/// The edges of rings, numbered as witnesses, in their order.
fn edges_of(rt: &impl Abort, alloc: Global, rings: &[(u32, Coordinates)]) -> Vec<HalfEdge> {
    let mut edges = Vec::new(alloc);
    for &(source, ring) in rings {
        for number in 0..ring.len() {
            let following = if number + 1 == ring.len() {
                0
            } else {
                number + 1
            };
            let witness = u32::try_from(edges.len()).expect(rt, "few edges");
            edges
                .push(HalfEdge {
                    from: at(rt, ring[number]),
                    to: at(rt, ring[following]),
                    source,
                    witness,
                    part: 0,
                })
                .expect(rt, "memory");
        }
    }
    edges.sort_unstable_by_key(|edge: &HalfEdge| edge.keys());
    edges
}

/// Whether a ring goes through these coordinates.
fn is_ring(rt: &impl Abort, ring: &[Point], wanted: Coordinates) -> bool {
    if ring.len() != wanted.len() {
        return false;
    }
    for number in 0..ring.len() {
        if ring[number] != at(rt, wanted[number]) {
            return false;
        }
    }
    true
}

/// Asserts that these are the rings of a polygon.
fn assert_rings(rt: &impl Abort, found: &[Vec<Point>], wanted: &[Coordinates]) {
    assert!(rt; found.len() == wanted.len());
    for number in 0..wanted.len() {
        assert!(rt; is_ring(rt, &found[number], wanted[number]));
    }
}

/// Asserts that these are the polygons.
fn assert_polygons(rt: &impl Abort, found: &[Vec<Vec<Point>>], wanted: Polygons) {
    assert!(rt; found.len() == wanted.len());
    for number in 0..wanted.len() {
        assert_rings(rt, &found[number], wanted[number]);
    }
}

/// The rings of polygons, each of which begins with a ring of positive area.
fn polygons_of(rt: &impl Abort, alloc: Global, outlines: Outlines) -> Vec<Vec<Vec<Point>>> {
    let mut polygons: Vec<Vec<Vec<Point>>> = Vec::new(alloc);
    for ring in outlines.rings {
        match polygons.last_mut() {
            Some(polygon) if twice_area(&ring) < 0 => polygon.push(ring).expect(rt, "memory"),
            _ => {
                let mut polygon = Vec::new(alloc);
                polygon.push(ring).expect(rt, "memory");
                polygons.push(polygon).expect(rt, "memory");
            }
        }
    }
    polygons
}

/// No rings.
fn no_outlines(alloc: Global) -> Outlines {
    Outlines {
        rings: Vec::new(alloc),
        witnesses: Vec::new(alloc),
    }
}

/// The polygons that are left of edges, and after how many cuts.
fn polygons_apart(
    rt: &impl Abort,
    alloc: Global,
    apart: Apart,
    edges: Vec<HalfEdge>,
) -> (Vec<Vec<Vec<Point>>>, u64) {
    let mut work = Work::new(100_000);
    let mut tally = Tally {
        crossings: 0,
        cuts: 0,
    };
    let mut outlines = no_outlines(alloc);
    let done = add_polygons_apart(alloc, apart, edges, &mut work, &mut tally, &mut outlines);
    assert!(rt; done.expect(rt, "memory"));
    let mut vertices: usize = 0;
    for ring in &outlines.rings {
        vertices = vertices.wrapping_add(ring.len());
    }
    assert!(rt; outlines.witnesses.len() == vertices);
    (polygons_of(rt, alloc, outlines), tally.cuts)
}

/// Asserts what an example becomes, and that each edge of it has a witness.
fn assert_apart(
    rt: &impl Abort,
    alloc: Global,
    apart: Apart,
    rings: &[(u32, Coordinates)],
    wanted: (Polygons, u64),
) {
    let edges = edges_of(rt, alloc, rings);
    let (found, cuts) = polygons_apart(rt, alloc, apart, edges);
    assert_polygons(rt, &found, wanted.0);
    assert!(rt; cuts == wanted.1);
}

#[test]
fn examples_by_polygon(rt: HostRuntime) {
    for example in &EXAMPLES {
        assert_apart(
            &rt,
            rt.alloc(),
            Apart::RingsOfOne,
            example.rings,
            example.by_polygon,
        );
    }
}

#[test]
fn examples_by_feature(rt: HostRuntime) {
    for example in &EXAMPLES {
        assert_apart(
            &rt,
            rt.alloc(),
            Apart::AllRings,
            example.rings,
            example.by_feature,
        );
    }
}

// Each edge that comes of a cut has the number of the nearer one of the two that it stands for.
#[test]
fn witnesses_of_a_cut(rt: HostRuntime) {
    let mut work = Work::new(1000);
    let mut tally = Tally {
        crossings: 0,
        cuts: 0,
    };
    let mut outlines = no_outlines(rt.alloc());
    let edges = edges_of(&rt, rt.alloc(), TWO_TRIANGLES.rings);
    let done = add_polygons_apart(
        rt.alloc(),
        Apart::AllRings,
        edges,
        &mut work,
        &mut tally,
        &mut outlines,
    );
    assert!(rt; done.expect(&rt, "memory"));
    // (the rings are those of the example)
    assert!(rt; outlines.rings.len() == 2);
    assert!(rt; outlines.rings[0].len() == 4 && outlines.rings[1].len() == 3);
    assert!(rt; outlines.witnesses.as_slice() == [0, 1, 2, 2, 3, 4, 5].as_slice());
}

/// The polygons that are left where only filled wedges are cut, and after how many cuts.
fn polygons_shrunk(
    rt: &impl Abort,
    alloc: Global,
    apart: Apart,
    edges: Vec<HalfEdge>,
) -> (Vec<Vec<Vec<Point>>>, u64) {
    let mut work = Work::new(100_000);
    let mut tally = Tally {
        crossings: 0,
        cuts: 0,
    };
    let mut outlines = no_outlines(alloc);
    let done = add_polygons_shrunk(alloc, apart, edges, &mut work, &mut tally, &mut outlines);
    assert!(rt; done.expect(rt, "memory"));
    (polygons_of(rt, alloc, outlines), tally.cuts)
}

/// The lakes of two lakes that touch in one: below the position where they do, a strip of land of
/// ten positions, from (-5, -1) to (5, -1) seen from there, is the nearest.
const ONE_LAKE: Polygons = &[&[
    SQUARE,
    &[
        (10, 18),
        (10, 22),
        (20, 20),
        (30, 22),
        (30, 18),
        (25, 19),
        (15, 19),
    ],
]];

// What is filled is parted where two lakes touch.
#[test]
fn shrinking(rt: HostRuntime) {
    for apart in [Apart::RingsOfOne, Apart::AllRings] {
        let edges = edges_of(&rt, rt.alloc(), TWO_LAKES.rings);
        let (found, cuts) = polygons_shrunk(&rt, rt.alloc(), apart, edges);
        assert_polygons(&rt, &found, ONE_LAKE);
        assert!(rt; cuts == 1);
    }
}

// Nothing is proposed where there is no work left.
#[test]
fn no_work(rt: HostRuntime) {
    let mut work = Work::new(7);
    let mut tally = Tally {
        crossings: 0,
        cuts: 0,
    };
    let mut outlines = no_outlines(rt.alloc());
    let edges = edges_of(&rt, rt.alloc(), LAKE_AT_THE_SHORE.rings);
    let done = add_polygons_apart(
        rt.alloc(),
        Apart::RingsOfOne,
        edges,
        &mut work,
        &mut tally,
        &mut outlines,
    );
    assert!(rt; !done.expect(&rt, "memory"));
    assert!(rt; work.left() == 0 && outlines.rings.is_empty() && outlines.witnesses.is_empty());
}

// Edges that don't come back bound nothing.
#[test]
fn no_boundary(rt: HostRuntime) {
    let mut work = Work::new(1000);
    let mut tally = Tally {
        crossings: 0,
        cuts: 0,
    };
    let mut outlines = no_outlines(rt.alloc());
    let mut edges = edges_of(&rt, rt.alloc(), &[(0, BELOW)]);
    let _ = edges.pop();
    let done = add_polygons_apart(
        rt.alloc(),
        Apart::RingsOfOne,
        edges,
        &mut work,
        &mut tally,
        &mut outlines,
    );
    assert!(rt; !done.expect(&rt, "memory"));
}
