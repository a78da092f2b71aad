//! Geometries of figures.

use mvt_draw::{Figure, SpellFault, spell};
use mvt_plane::Point;
use std::alloc::Global;

/// 2^30, the greatest coordinate.
const GREATEST: i32 = 1_073_741_824;

/// Points at these coordinates, all of which are in range.
fn points(alloc: Global, coordinates: &[(i32, i32)]) -> Option<Vec<Point>> {
    let mut points = Vec::new(alloc);
    for &(x, y) in coordinates {
        if points.push(Point::new(x, y)?).is_err() {
            return None;
        }
    }
    Some(points)
}

/// Lines or rings through points at these coordinates.
fn parts(alloc: Global, coordinates: &[&[(i32, i32)]]) -> Option<Vec<Vec<Point>>> {
    let mut parts = Vec::new(alloc);
    for part in coordinates {
        if parts.push(points(alloc, part)?).is_err() {
            return None;
        }
    }
    Some(parts)
}

/// Whether the figure is spelled as these numbers, or has no spelling.
fn is_spelled(alloc: Global, figure: &Figure, numbers: Option<&[u32]>) -> bool {
    match spell(alloc, figure) {
        Ok(spelled) => numbers == Some(spelled.as_slice()),
        Err(fault) => fault == SpellFault::Unspellable && numbers.is_none(),
    }
}

/// Whether points at these coordinates are spelled as these numbers, or have no spelling.
fn spells_points(alloc: Global, coordinates: &[(i32, i32)], numbers: Option<&[u32]>) -> bool {
    match points(alloc, coordinates) {
        Some(points) => is_spelled(alloc, &Figure::Points(points), numbers),
        None => false,
    }
}

/// Whether lines through points at these coordinates are spelled as these numbers, or have no
/// spelling.
fn spells_lines(alloc: Global, coordinates: &[&[(i32, i32)]], numbers: Option<&[u32]>) -> bool {
    match parts(alloc, coordinates) {
        Some(lines) => is_spelled(alloc, &Figure::Lines(lines), numbers),
        None => false,
    }
}

/// Whether rings through points at these coordinates are spelled as these numbers, or have no
/// spelling.
fn spells_rings(alloc: Global, coordinates: &[&[(i32, i32)]], numbers: Option<&[u32]>) -> bool {
    match parts(alloc, coordinates) {
        Some(rings) => is_spelled(alloc, &Figure::Rings(rings), numbers),
        None => false,
    }
}

// The examples of the specification, section 4.3.5, come first in each.

#[test]
fn points_in_one_command(rt: HostRuntime) {
    let alloc = rt.alloc();
    assert!(rt; spells_points(alloc, &[(25, 17)], Some(&[9, 50, 34])));
    assert!(rt; spells_points(alloc, &[(5, 7), (3, 2)], Some(&[17, 10, 14, 3, 9])));
    // two points at one position
    assert!(rt; spells_points(alloc, &[(1, 1), (1, 1)], Some(&[17, 2, 2, 0, 0])));
    assert!(rt; spells_points(alloc, &[], None));
}

#[test]
fn the_longest_steps(rt: HostRuntime) {
    let alloc = rt.alloc();
    let (right, left) = ((GREATEST, 0), (-GREATEST, 0));
    assert!(rt;
        spells_points(
            alloc,
            &[left, (GREATEST - 1, 0)],
            Some(&[17, 2_147_483_647, 0, 4_294_967_294, 0])
        )
    );
    assert!(rt;
        spells_points(
            alloc,
            &[right, (1 - GREATEST, 0)],
            Some(&[17, 2_147_483_648, 0, 4_294_967_293, 0])
        )
    );
    assert!(rt; spells_points(alloc, &[left, right], None));
    assert!(rt; spells_points(alloc, &[right, left], None));
    assert!(rt; spells_points(alloc, &[(0, GREATEST), (0, -GREATEST)], None));
}

#[test]
fn lines_from_where_the_last_one_ends(rt: HostRuntime) {
    let alloc = rt.alloc();
    let line = [(2, 2), (2, 10), (10, 10)];
    assert!(rt; spells_lines(alloc, &[&line], Some(&[9, 4, 4, 18, 0, 16, 16, 0])));
    assert!(rt;
        spells_lines(
            alloc,
            &[&line, &[(1, 1), (3, 5)]],
            Some(&[9, 4, 4, 18, 0, 16, 16, 0, 9, 17, 17, 10, 4, 8])
        )
    );
    assert!(rt; spells_lines(alloc, &[], None));
    assert!(rt; spells_lines(alloc, &[&[]], None));
    assert!(rt; spells_lines(alloc, &[&[(1, 1)]], None));
    assert!(rt; spells_lines(alloc, &[&line, &[(1, 1)]], None));
    assert!(rt; spells_lines(alloc, &[&[(1, 1), (2, 2), (2, 2)]], None));
}

#[test]
fn rings_with_a_close_path_each(rt: HostRuntime) {
    let alloc = rt.alloc();
    assert!(rt;
        spells_rings(
            alloc,
            &[&[(3, 6), (8, 12), (20, 34)]],
            Some(&[9, 6, 12, 18, 10, 12, 24, 44, 15])
        )
    );
    assert!(rt;
        spells_rings(
            alloc,
            &[
                &[(0, 0), (10, 0), (10, 10), (0, 10)],
                &[(11, 11), (20, 11), (20, 20), (11, 20)],
                &[(13, 13), (13, 17), (17, 17), (17, 13)],
            ],
            Some(&[
                9, 0, 0, 26, 20, 0, 0, 20, 19, 0, 15, 9, 22, 2, 26, 18, 0, 0, 18, 17, 0, 15, 9, 4,
                13, 26, 0, 8, 8, 0, 0, 7, 15,
            ])
        )
    );
    // the last position may be the first one again
    assert!(rt;
        spells_rings(
            alloc,
            &[&[(0, 0), (1, 0), (0, 0)]],
            Some(&[9, 0, 0, 18, 2, 0, 1, 0, 15])
        )
    );
    assert!(rt; spells_rings(alloc, &[], None));
    assert!(rt; spells_rings(alloc, &[&[(1, 1), (2, 2)]], None));
    assert!(rt; spells_rings(alloc, &[&[(1, 1), (1, 1), (2, 2)]], None));
}

#[test]
fn an_unknown_figure(rt: HostRuntime) {
    assert!(rt; is_spelled(rt.alloc(), &Figure::Unknown, None));
}
