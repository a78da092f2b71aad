use crate::Point;

const GREATEST: i32 = 1_073_741_824;

#[test]
fn origin_is_zero_on_both_axes(rt: HostRuntime) {
    assert!(rt; Some(Point::origin()) == Point::new(0, 0));
}

#[test]
fn both_coordinates_are_bounded(rt: HostRuntime) {
    assert!(rt; is_point(GREATEST, -GREATEST));
    assert!(rt; is_point(-GREATEST, GREATEST));
    assert!(rt; !is_point(GREATEST + 1, 0));
    assert!(rt; !is_point(-GREATEST - 1, 0));
    assert!(rt; !is_point(0, GREATEST + 1));
    assert!(rt; !is_point(0, -GREATEST - 1));
}

/// Whether there is a point at these coordinates.
fn is_point(x: i32, y: i32) -> bool {
    Point::new(x, y).is_some()
}
