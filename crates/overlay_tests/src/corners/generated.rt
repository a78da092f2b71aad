//! Cells of a grid filled at random: whatever touches there, what is left of it is apart.

use super::{polygons_apart, polygons_shrunk};
use mvt_overlay::Apart;
use mvt_plane::{Count, Edge, Point, common, sweep_key};
use mvt_segments::{HalfEdge, Keyed};
use std::alloc::Global;
use std::process::Abort;

/// So many cells are in a row, and so many rows there are.
const CELLS: i32 = 6;

/// A source of numbers.
#[derive(Clone, Copy)]
struct Dice {
    state: i32,
}

impl Dice {
    /// A number from 0 to 7.
    fn throw(&mut self) -> i32 {
        self.state = self.state.wrapping_mul(1_103_515_245).wrapping_add(12_345);
        (self.state >> 16) & 7
    }
}

/// How the corners of cells are placed: how far it is to the next one along a row, and to the one
/// above it.
type Placing = ((i32, i32), (i32, i32));

/// Cells of the least size, larger ones, and slanted ones of several shapes.
const PLACINGS: [Placing; 5] = [
    ((1, 0), (0, 1)),
    ((7, 0), (0, 7)),
    ((3, 1), (1, 2)),
    ((2, 1), (-5, 3)),
    ((13, 8), (8, 5)),
];

/// Which cells are filled, row by row.
fn filled_cells(rt: &impl Abort, alloc: Global, dice: &mut Dice) -> Vec<bool> {
    let mut cells = Vec::new(alloc);
    for _ in 0..CELLS * CELLS {
        cells.push(dice.throw() < 4).expect(rt, "memory");
    }
    cells
}

/// Whether a cell is there, and filled.
fn is_filled(cells: &[bool], column: i32, row: i32) -> bool {
    let known = 0..CELLS;
    if !known.contains(&column) || !known.contains(&row) {
        return false;
    }
    match usize::try_from(row.wrapping_mul(CELLS).wrapping_add(column)) {
        Ok(number) => cells.get(number) == Some(&true),
        Err(_) => false,
    }
}

/// The lower left corner of a cell.
fn corner(rt: &impl Abort, placing: &Placing, column: i32, row: i32) -> Point {
    let (along, above) = *placing;
    let x = along
        .0
        .wrapping_mul(column)
        .wrapping_add(above.0.wrapping_mul(row));
    let y = along
        .1
        .wrapping_mul(column)
        .wrapping_add(above.1.wrapping_mul(row));
    Point::new(x, y).expect(rt, "a position")
}

/// The sides of a cell, counterclockwise: where each begins and ends, seen from its lower left
/// corner, and in which direction the cell beside it is.
const SIDES: [((i32, i32), (i32, i32), (i32, i32)); 4] = [
    ((0, 0), (1, 0), (0, -1)),
    ((1, 0), (1, 1), (1, 0)),
    ((1, 1), (0, 1), (0, 1)),
    ((0, 1), (0, 0), (-1, 0)),
];

/// The sides of filled cells beside which nothing is filled, in their order.
fn sides_of(
    rt: &impl Abort,
    alloc: Global,
    cells: &[bool],
    placing: &Placing,
    dice: &mut Dice,
) -> Vec<HalfEdge> {
    let mut edges = Vec::new(alloc);
    for cell in 0..CELLS * CELLS {
        let (column, row) = (cell % CELLS, cell / CELLS);
        if !is_filled(cells, column, row) {
            continue;
        }
        let source = if dice.throw() < 4 { 0 } else { 1 };
        for (from, to, beside) in SIDES {
            let (x, y) = (column.wrapping_add(beside.0), row.wrapping_add(beside.1));
            if is_filled(cells, x, y) {
                continue;
            }
            let end = |(x, y): (i32, i32)| (column.wrapping_add(x), row.wrapping_add(y));
            let (from, to) = (end(from), end(to));
            edges
                .push(HalfEdge {
                    from: corner(rt, placing, from.0, from.1),
                    to: corner(rt, placing, to.0, to.1),
                    source,
                    witness: 0,
                    part: 0,
                })
                .expect(rt, "memory");
        }
    }
    edges.sort_unstable_by_key(|edge: &HalfEdge| edge.keys());
    edges
}

/// Adds the edges of rings.
fn add_edges(rt: &impl Abort, rings: &[Vec<Point>], edges: &mut Vec<Edge>) {
    for ring in rings {
        for number in 0..ring.len() {
            let following = if number + 1 == ring.len() {
                0
            } else {
                number + 1
            };
            edges
                .push(Edge {
                    a: ring[number],
                    b: ring[following],
                })
                .expect(rt, "memory");
        }
    }
}

/// Asserts that no two edges of rings begin at one position, and that none meet but where one
/// begins where the other ends.
fn assert_apart(rt: &impl Abort, edges: &[Edge]) {
    for second in 0..edges.len() {
        for first in 0..second {
            let (one, other) = (edges[first], edges[second]);
            assert!(rt; sweep_key(one.a) != sweep_key(other.a));
            let shared = if one.b == other.a {
                Some(one.b)
            } else if one.a == other.b {
                Some(one.a)
            } else {
                None
            };
            assert!(rt; common(one, other, shared, &mut Count::new()).is_none());
        }
    }
}

/// Asserts that no rings of one polygon touch, or by `feature` none of any.
fn assert_polygons_apart(
    rt: &impl Abort,
    alloc: Global,
    apart: Apart,
    polygons: &[Vec<Vec<Point>>],
) {
    let mut all = Vec::new(alloc);
    for polygon in polygons {
        let mut own = Vec::new(alloc);
        add_edges(rt, polygon, &mut own);
        assert_apart(rt, &own);
        add_edges(rt, polygon, &mut all);
    }
    if apart == Apart::AllRings {
        assert_apart(rt, &all);
    }
}

/// Asserts that what is left of filled cells is apart, also where only filled wedges
/// are cut.
fn assert_cells_apart(rt: &impl Abort, alloc: Global, apart: Apart, edges: &[HalfEdge]) {
    let again = Vec::from_slice(alloc, edges).expect(rt, "memory");
    let edges = Vec::from_slice(alloc, edges).expect(rt, "memory");
    let (found, _) = polygons_apart(rt, alloc, apart, edges);
    assert_polygons_apart(rt, alloc, apart, &found);
    let (found, _) = polygons_shrunk(rt, alloc, apart, again);
    assert_polygons_apart(rt, alloc, apart, &found);
}

#[test]
fn cells(rt: HostRuntime) {
    let mut dice = Dice { state: 1 };
    for placing in &PLACINGS {
        for _ in 0..60 {
            let cells = filled_cells(&rt, rt.alloc(), &mut dice);
            let edges = sides_of(&rt, rt.alloc(), &cells, placing, &mut dice);
            assert_cells_apart(&rt, rt.alloc(), Apart::RingsOfOne, &edges);
            assert_cells_apart(&rt, rt.alloc(), Apart::AllRings, &edges);
        }
    }
}
