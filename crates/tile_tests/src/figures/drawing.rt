//! Figures of geometries.

use super::{are_parts, are_points};
use mvt_draw::{DrawFault, Figure, draw};
use mvt_fault::CommandCode;
use mvt_tile::Kind;
use std::alloc::Global;

/// Whether the numbers draw points at these coordinates.
fn draw_points(alloc: Global, numbers: &[u32], expected: &[(i32, i32)]) -> bool {
    match draw(alloc, Kind::Point, numbers) {
        Ok(Figure::Points(points)) => are_points(points.as_slice(), expected),
        _ => false,
    }
}

/// Whether the numbers draw lines through these coordinates.
fn draw_lines(alloc: Global, numbers: &[u32], expected: &[&[(i32, i32)]]) -> bool {
    match draw(alloc, Kind::LineString, numbers) {
        Ok(Figure::Lines(lines)) => are_parts(lines.as_slice(), expected),
        _ => false,
    }
}

/// Whether the numbers draw rings through these coordinates.
fn draw_rings(alloc: Global, numbers: &[u32], expected: &[&[(i32, i32)]]) -> bool {
    match draw(alloc, Kind::Polygon, numbers) {
        Ok(Figure::Rings(rings)) => are_parts(rings.as_slice(), expected),
        _ => false,
    }
}

// The examples of Mapbox Vector Tile Specification 2.1, section 4.3.5, and the greatest and the
// least coordinate.
#[test]
fn points(rt: HostRuntime) {
    let alloc = rt.alloc();
    assert!(rt; draw_points(alloc, &[9, 50, 34], &[(25, 17)]));
    assert!(rt; draw_points(alloc, &[17, 10, 14, 3, 9], &[(5, 7), (3, 2)]));
    let greatest = 1 << 30;
    let numbers = [9, 2_147_483_648, 2_147_483_647];
    assert!(rt; draw_points(alloc, &numbers, &[(greatest, -greatest)]));
}

#[test]
fn lines(rt: HostRuntime) {
    let first = [(2, 2), (2, 10), (10, 10)];
    let numbers = [9, 4, 4, 18, 0, 16, 16, 0];
    assert!(rt; draw_lines(rt.alloc(), &numbers, &[&first]));
    let numbers = [9, 4, 4, 18, 0, 16, 16, 0, 9, 17, 17, 10, 4, 8];
    assert!(rt; draw_lines(rt.alloc(), &numbers, &[&first, &[(1, 1), (3, 5)]]));
}

// A ClosePath leaves the cursor at the ring's last position.
#[test]
fn rings(rt: HostRuntime) {
    let triangle = [(3, 6), (8, 12), (20, 34)];
    let numbers = [9, 6, 12, 18, 10, 12, 24, 44, 15];
    assert!(rt; draw_rings(rt.alloc(), &numbers, &[&triangle]));
    let numbers = [
        9, 0, 0, 26, 20, 0, 0, 20, 19, 0, 15, 9, 22, 2, 26, 18, 0, 0, 18, 17, 0, 15, 9, 4, 13, 26,
        0, 8, 8, 0, 0, 7, 15,
    ];
    let first = [(0, 0), (10, 0), (10, 10), (0, 10)];
    let second = [(11, 11), (20, 11), (20, 20), (11, 20)];
    let hole = [(13, 13), (13, 17), (17, 17), (17, 13)];
    assert!(rt; draw_rings(rt.alloc(), &numbers, &[&first, &second, &hole]));
}

#[test]
fn unknown(rt: HostRuntime) {
    assert!(rt; draw(rt.alloc(), Kind::Unknown, &[99]) == Ok(Figure::Unknown));
}

// The greatest count, with no step: nothing is reserved for it.
#[test]
fn a_count_too_large(rt: HostRuntime) {
    let fault = DrawFault::Command {
        code: CommandCode::Unfinished,
        index: 1,
    };
    assert!(rt; draw(rt.alloc(), Kind::Point, &[4_294_967_289]) == Err(fault));
}
