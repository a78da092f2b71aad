//! Points that look scattered, the same ones in each run.
use mvt_plane::Point;
use std::alloc::Global;

/// How many points there are.
const COUNT: usize = 1_000_000;

/// The next of numbers that look random: Knuth's linear congruence of 64 bits.
fn scrambled(state: u64) -> u64 {
    state
        .wrapping_mul(6_364_136_223_846_793_005)
        .wrapping_add(1_442_695_040_888_963_407)
}

/// Points all over the plane.
pub fn scattered(alloc: Global) -> Option<Vec<Point>> {
    let mut points = Vec::new(alloc);
    let mut state = 1_u64;
    for _ in 0..COUNT {
        let across = scrambled(state);
        state = scrambled(across);
        points.push(Point::new(wide(across), wide(state))?).ok()?;
    }
    Some(points)
}

/// Points each of which is at most 32 units from the one before, in both coordinates: a line as
/// maps have it.
pub fn walked(alloc: Global) -> Option<Vec<Point>> {
    let mut points = Vec::new(alloc);
    let (mut state, mut x, mut y) = (1_u64, 0_i32, 0_i32);
    for _ in 0..COUNT {
        let across = scrambled(state);
        state = scrambled(across);
        x = x.wrapping_add(narrow(across));
        y = y.wrapping_add(narrow(state));
        points.push(Point::new(x, y)?).ok()?;
    }
    Some(points)
}

/// A coordinate from -2^30 to 2^30 - 1.
fn wide(state: u64) -> i32 {
    ((state >> 33) as i32).wrapping_sub(1 << 30)
}

/// A step from -32 to 31.
fn narrow(state: u64) -> i32 {
    ((state >> 58) as i32).wrapping_sub(32)
}
