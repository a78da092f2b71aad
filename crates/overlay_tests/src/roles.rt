//! Which rings are meant as exteriors, and whose holes the others are.

use mvt_overlay::{homes_of_strays, polygons_meant};
use mvt_plane::Point;
use mvt_segments::Work;
use std::alloc::Global;
use std::process::Abort;
use std::test::Fail;

/// The ring with vertices at these coordinates.
fn ring(rt: &impl Abort, alloc: Global, vertices: &[(i32, i32)]) -> Vec<Point> {
    let mut ring = Vec::new(alloc);
    for (x, y) in vertices {
        let vertex = Point::new(*x, *y).expect(rt, "in range");
        ring.push(vertex).expect(rt, "memory");
    }
    ring
}

/// A square between these coordinates on both axes, of positive area.
fn square(rt: &impl Abort, alloc: Global, low: i32, high: i32) -> Vec<Point> {
    ring(
        rt,
        alloc,
        &[(low, low), (high, low), (high, high), (low, high)],
    )
}

/// The same, of negative area.
fn hole(rt: &impl Abort, alloc: Global, low: i32, high: i32) -> Vec<Point> {
    ring(
        rt,
        alloc,
        &[(low, low), (low, high), (high, high), (high, low)],
    )
}

/// Of each polygon, the first coordinates of its rings.
fn begins(alloc: Global, polygons: &[Vec<Vec<Point>>]) -> Result<Vec<Vec<i32>>, Fail> {
    let mut begins = Vec::new(alloc);
    for polygon in polygons {
        let mut rings = Vec::new(alloc);
        for ring in polygon {
            rings.push(ring.first().map_or(0, |vertex| vertex.x()))?;
        }
        begins.push(rings)?;
    }
    Ok(begins)
}

/// The polygons that these rings are meant to be, by the first coordinates of their rings.
fn meant(alloc: Global, rings: &[Vec<Point>]) -> Result<Vec<Vec<i32>>, Fail> {
    let polygons = polygons_meant(alloc, rings, &mut Work::new(10_000))?.ok_or("gave up")?;
    begins(alloc, &polygons)
}

// Exteriors of positive area with their holes, and a line at the end.
#[test]
fn by_area(rt: HostRuntime) -> Result<(), Fail> {
    let alloc = rt.alloc();
    let rings = vec![in alloc;
        ring(&rt, alloc, &[(50, 0), (51, 1), (52, 2)]),
        square(&rt, alloc, 0, 9),
        hole(&rt, alloc, 1, 2),
        hole(&rt, alloc, 3, 4),
        square(&rt, alloc, 10, 19),
    ]?;
    let want = vec![in alloc;
        vec![in alloc; 0, 1, 3]?,
        vec![in alloc; 10]?,
        vec![in alloc; 50]?,
    ]?;
    assert_eq!(rt; meant(alloc, &rings)?, want);
    Ok(())
}

// The same wound backwards, with an island in the first hole: by nesting.
#[test]
fn backwards(rt: HostRuntime) -> Result<(), Fail> {
    let alloc = rt.alloc();
    let rings = vec![in alloc;
        hole(&rt, alloc, 0, 90),
        square(&rt, alloc, 10, 40),
        square(&rt, alloc, 60, 70),
        hole(&rt, alloc, 20, 30),
        square(&rt, alloc, 100, 190),
    ]?;
    let want = vec![in alloc;
        vec![in alloc; 0, 10, 60]?,
        vec![in alloc; 20]?,
        vec![in alloc; 100]?,
    ]?;
    assert_eq!(rt; meant(alloc, &rings)?, want);
    Ok(())
}

// Holes that touch their exterior from within: by a vertex on its left side, by one on its lower
// side, and by a vertex of its own. All rings are wound backwards.
#[test]
fn touching(rt: HostRuntime) -> Result<(), Fail> {
    let alloc = rt.alloc();
    let rings = vec![in alloc;
        hole(&rt, alloc, 0, 90),
        ring(&rt, alloc, &[(0, 40), (30, 30), (30, 50)]),
        ring(&rt, alloc, &[(20, 0), (30, 10), (21, 10)]),
        ring(&rt, alloc, &[(90, 90), (50, 80), (60, 70)]),
    ]?;
    let want = vec![in alloc; vec![in alloc; 0, 0, 20, 90]?]?;
    assert_eq!(rt; meant(alloc, &rings)?, want);
    Ok(())
}

// Along a part of the lower side of an exterior lie a hole from within and a ring from outside, and
// along a part of its upper side a ring from outside. The first ring is wound backwards.
#[test]
fn sides_shared(rt: HostRuntime) -> Result<(), Fail> {
    let alloc = rt.alloc();
    let rings = vec![in alloc;
        hole(&rt, alloc, 0, 90),
        ring(&rt, alloc, &[(20, 0), (40, 0), (30, 10)]),
        ring(&rt, alloc, &[(50, 0), (60, -10), (70, 0)]),
        ring(&rt, alloc, &[(25, 90), (45, 90), (30, 99)]),
    ]?;
    let want = vec![in alloc;
        vec![in alloc; 0, 20]?,
        vec![in alloc; 50]?,
        vec![in alloc; 25]?,
    ]?;
    assert_eq!(rt; meant(alloc, &rings)?, want);
    Ok(())
}

// A hole reaches out of its exterior with one of its five vertices, and has an island in it. The
// line of the sweep comes to an end of the exterior with edges of the hole between its sides, so
// tests of positions tell. All rings are wound backwards.
#[test]
fn reaching_out(rt: HostRuntime) -> Result<(), Fail> {
    let alloc = rt.alloc();
    let rings = vec![in alloc;
        hole(&rt, alloc, 0, 90),
        ring(
            &rt,
            alloc,
            &[(10, 20), (60, 20), (100, 25), (60, 30), (10, 30)]
        ),
        ring(&rt, alloc, &[(20, 24), (25, 27), (30, 24)]),
    ]?;
    let want = vec![in alloc; vec![in alloc; 0, 10]?, vec![in alloc; 20]?]?;
    assert_eq!(rt; meant(alloc, &rings)?, want);
    let none = polygons_meant(alloc, &rings, &mut Work::new(5))?;
    assert!(rt; none.is_none());
    Ok(())
}

// A position that repeats the one before, or the first one at the end, is left out, and a ring that
// then has two positions too.
#[test]
fn repeats(rt: HostRuntime) -> Result<(), Fail> {
    let alloc = rt.alloc();
    let rings = vec![in alloc;
        ring(
            &rt,
            alloc,
            &[(0, 0), (0, 0), (4, 0), (4, 3), (4, 3), (0, 0)]
        ),
        ring(&rt, alloc, &[(1, 1), (1, 1), (2, 1), (1, 1)]),
    ]?;
    let polygons = polygons_meant(alloc, &rings, &mut Work::new(0))?.ok_or("gave up")?;
    let want = vec![in alloc; vec![in alloc; ring(&rt, alloc, &[(0, 0), (4, 0), (4, 3)])]?]?;
    assert_eq!(rt; polygons, want);
    Ok(())
}

// A hole that is in the second of two exteriors, and one that is in none.
#[test]
fn strays(rt: HostRuntime) -> Result<(), Fail> {
    let alloc = rt.alloc();
    let polygons = vec![in alloc;
        vec![in alloc; square(&rt, alloc, 0, 9)]?,
        vec![in alloc; square(&rt, alloc, 10, 40)]?,
    ]?;
    let strays = vec![in alloc; hole(&rt, alloc, 20, 30), hole(&rt, alloc, 50, 60)]?;
    let homes = homes_of_strays(alloc, &strays, &polygons, &mut Work::new(10_000))?;
    assert_eq!(rt;
        homes.ok_or("gave up")?.as_slice(),
        [Some(1), None].as_slice()
    );
    Ok(())
}
