use crate::Hpoint;

const GREATEST_W: i128 = 9_223_372_036_854_775_808;

const GREATEST: i128 = 9_903_520_314_283_042_199_192_993_792;

#[test]
fn all_three_numbers_are_bounded(rt: HostRuntime) {
    assert!(rt; is_point(GREATEST, -GREATEST, 1));
    assert!(rt; is_point(-GREATEST, GREATEST, GREATEST_W));
    assert!(rt; !is_point(0, 0, 0));
    assert!(rt; !is_point(0, 0, GREATEST_W + 1));
}

#[test]
fn both_coordinates_are_bounded(rt: HostRuntime) {
    assert!(rt; !is_point(GREATEST + 1, 0, 1));
    assert!(rt; !is_point(-GREATEST - 1, 0, 1));
    assert!(rt; !is_point(0, GREATEST + 1, 1));
    assert!(rt; !is_point(0, -GREATEST - 1, 1));
}

/// Whether there is a rational point of these numbers.
fn is_point(x: i128, y: i128, w: i128) -> bool {
    Hpoint::new(x, y, w).is_some()
}
