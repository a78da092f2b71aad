use crate::{Hpoint, Point, on_edge};

#[test]
fn points_of_an_edge_are_on_its_line_and_between_its_ends(rt: HostRuntime) {
    assert!(rt; is_on(800, 800, 180) == Some(true));
    assert!(rt; is_on(40, 40, 9) == Some(true));
    assert!(rt; is_on(800, 800, 181) == Some(false));
    assert!(rt; is_on(20, -8, 1) == Some(false));
}

/// Whether a rational point is on the edge from (0, 8) to (10, 0).
fn is_on(x: i128, y: i128, w: i128) -> Option<bool> {
    let point = Hpoint::new(x, y, w)?;
    Some(on_edge(&point, Point::new(0, 8)?, Point::new(10, 0)?))
}
