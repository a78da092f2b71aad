//! The calls that are timed, each over all points.
use crate::points::{scattered, walked};
use mvt_plane::{Count, Edge, Hpoint, Point, common, inside, orient};
use std::alloc::Global;

/// What is timed.
#[derive(Clone, Copy)]
pub enum Call {
    /// `orient` of each three points in a row, all over the plane.
    Orient,
    /// `common` of each edge of a walk and the next one, which share a vertex.
    Neighbours,
    /// `common` of each edge of a walk and the next but one, which mostly have no common point.
    Apart,
    /// `common` of the two diagonals of a rectangle, which cross.
    Crossing,
    /// `inside` of one point in the ring of a walk: few edges have it between their ends' x.
    Inside,
    /// `inside` of one point in a ring all over the plane: half of the edges have it between them.
    InsideScattered,
}

impl Call {
    /// The call of this name.
    pub fn named(name: &str) -> Option<Call> {
        Some(match name {
            "orient" => Call::Orient,
            "neighbours" => Call::Neighbours,
            "apart" => Call::Apart,
            "crossing" => Call::Crossing,
            "inside" => Call::Inside,
            "inside_scattered" => Call::InsideScattered,
            _ => return None,
        })
    }

    /// The points that it is called on. None where memory is refused.
    pub fn points(self, alloc: Global) -> Option<Vec<Point>> {
        match self {
            Call::Neighbours | Call::Apart | Call::Inside => walked(alloc),
            Call::Orient | Call::Crossing | Call::InsideScattered => scattered(alloc),
        }
    }

    /// A sum over its answers on all of these points.
    pub fn round(self, points: &[Point]) -> u64 {
        match self {
            Call::Orient => orientations(points),
            Call::Neighbours => neighbours(points),
            Call::Apart => apart(points),
            Call::Crossing => crossings(points),
            Call::Inside | Call::InsideScattered => u64::from(is_inside(points)),
        }
    }
}

fn orientations(points: &[Point]) -> u64 {
    let mut sum = 0_i128;
    for corner in points.windows(3) {
        sum = sum.wrapping_add(orient(corner[0], corner[1], corner[2]));
    }
    // (the lowest bits, which are not below 0 and fit)
    u64::try_from(sum & i128::from(u64::MAX)).unwrap_or(0)
}

fn neighbours(points: &[Point]) -> u64 {
    let (mut sum, mut count) = (0_u64, Count::new());
    for corner in points.windows(3) {
        let (e, f) = (edge(corner[0], corner[1]), edge(corner[1], corner[2]));
        sum = sum.wrapping_add(w_of(common(e, f, Some(corner[1]), &mut count)));
    }
    sum.wrapping_add(count.tests())
}

fn apart(points: &[Point]) -> u64 {
    let (mut sum, mut count) = (0_u64, Count::new());
    for corner in points.windows(4) {
        let (e, f) = (edge(corner[0], corner[1]), edge(corner[2], corner[3]));
        sum = sum.wrapping_add(w_of(common(e, f, None, &mut count)));
    }
    sum.wrapping_add(count.tests())
}

fn crossings(points: &[Point]) -> u64 {
    let (mut sum, mut count) = (0_u64, Count::new());
    for corner in points.windows(2) {
        let (p, q) = (corner[0], corner[1]);
        let (Some(a), Some(b)) = (Point::new(p.x(), q.y()), Point::new(q.x(), p.y())) else {
            continue;
        };
        sum = sum.wrapping_add(w_of(common(edge(p, q), edge(a, b), None, &mut count)));
    }
    sum.wrapping_add(count.tests())
}

fn is_inside(points: &[Point]) -> bool {
    match points.first() {
        Some(point) => inside(*point, points),
        None => false,
    }
}

fn edge(a: Point, b: Point) -> Edge {
    Edge { a, b }
}

/// The low bits of the point's w, or 0 where there is none.
fn w_of(point: Option<Hpoint>) -> u64 {
    match point {
        Some(point) => point.w() as u64,
        None => 0,
    }
}
