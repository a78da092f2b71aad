use crate::{Point, inside};

const GREATEST: i32 = 1_073_741_824;

#[test]
fn an_odd_number_of_edges_passes_over_what_is_inside(rt: HostRuntime) {
    assert!(rt; is_inside(0, 10, 5, 5) == Some(true));
    assert!(rt; is_inside(0, 10, 10, 5) == Some(false));
    assert!(rt; is_inside(0, 10, 0, 5) == Some(true));
}

#[test]
fn rings_reach_to_the_bounds_of_coordinates(rt: HostRuntime) {
    assert!(rt; is_inside(-GREATEST, GREATEST, 0, 0) == Some(true));
}

/// Whether a position is inside the square from one coordinate to another along both axes.
fn is_inside(low: i32, high: i32, x: i32, y: i32) -> Option<bool> {
    let square = [
        Point::new(low, low)?,
        Point::new(high, low)?,
        Point::new(high, high)?,
        Point::new(low, high)?,
    ];
    Some(inside(Point::new(x, y)?, &square))
}
