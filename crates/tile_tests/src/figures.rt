//! Figures that are drawn, checked and spelled.

mod checking;
mod drawing;
mod ring_buffer;
mod spelling;

use mvt_plane::Point;

/// Whether the points have these coordinates, in this order.
pub(crate) fn are_points(points: &[Point], expected: &[(i32, i32)]) -> bool {
    if points.len() != expected.len() {
        return false;
    }
    for (i, point) in points.iter().enumerate() {
        if (point.x(), point.y()) != expected[i] {
            return false;
        }
    }
    true
}

/// Whether the lines or rings have these coordinates, in this order.
pub(crate) fn are_parts(parts: &[Vec<Point>], expected: &[&[(i32, i32)]]) -> bool {
    if parts.len() != expected.len() {
        return false;
    }
    for (i, part) in parts.iter().enumerate() {
        if !are_points(part.as_slice(), expected[i]) {
            return false;
        }
    }
    true
}
