use crate::{Count, Edge, Hpoint, Point, common};

/// Half the side of the greatest square.
const M: i32 = 1_073_741_824;

#[test]
fn an_end_is_named_before_the_crossing(rt: HostRuntime) {
    // an overlap: the end of the first that is on the second
    assert!(rt;
        have_in_common(
            edge(0, 0, 10, 0),
            edge(5, 0, 15, 0),
            None,
            Hpoint::new(10, 0, 1)
        )
    );
    // neighbours in a ring, with the vertex that they share
    let shared = Point::new(10, 0);
    assert!(rt; have_in_common(edge(0, 0, 10, 0), edge(10, 0, 10, 10), shared, None));
    // the same edges, where it isn't said that they share it
    assert!(rt;
        have_in_common(
            edge(0, 0, 10, 0),
            edge(10, 0, 10, 10),
            None,
            Hpoint::new(10, 0, 1)
        )
    );
}

#[test]
fn a_crossing_is_named_by_its_weights(rt: HostRuntime) {
    // the diagonals of the greatest square
    let greatest = Hpoint::new(0, 0, 9_223_372_036_854_775_808);
    assert!(rt; have_in_common(edge(-M, -M, M, M), edge(-M, M, M, -M), None, greatest));
    // a crossing that is no position
    let crossing = Hpoint::new(800, 800, 180);
    assert!(rt; have_in_common(edge(0, 8, 10, 0), edge(10, 10, 0, 0), None, crossing));
}

/// The edge between two positions.
fn edge(a_x: i32, a_y: i32, b_x: i32, b_y: i32) -> Option<Edge> {
    Some(Edge {
        a: Point::new(a_x, a_y)?,
        b: Point::new(b_x, b_y)?,
    })
}

/// Whether two edges have this point in common.
fn have_in_common(
    e: Option<Edge>,
    f: Option<Edge>,
    shared: Option<Point>,
    expected: Option<Hpoint>,
) -> bool {
    let (Some(e), Some(f)) = (e, f) else {
        return false;
    };
    common(e, f, shared, &mut Count::new()) == expected
}
