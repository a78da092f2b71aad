//! Rings of features that break rules, and what becomes of them.

use mvt_fault::Profile;
use mvt_feature::check_feature;
use mvt_mend::{MendedRings, Work, mend_rings};
use mvt_plane::{Count, Point, twice_area};
use mvt_polygon::{check_polygon, check_rings, groups};
use mvt_sweep::are_proper;
use std::alloc::{AllocError, Global};
use std::process::Abort;

/// The vertices of a ring.
type Coordinates = &'static [(i32, i32)];

/// More work than any of these features needs.
const MUCH_WORK: u64 = 1_000_000;

/// Rings through these coordinates.
fn rings_at(
    rt: &impl Abort,
    alloc: Global,
    rings: &[&[(i32, i32)]],
) -> Result<Vec<Vec<Point>>, AllocError> {
    let mut all = Vec::new(alloc);
    for ring in rings {
        let mut vertices = Vec::new(alloc);
        for (x, y) in *ring {
            vertices.push(Point::new(*x, *y).expect(rt, "in range"))?;
        }
        all.push(vertices)?;
    }
    Ok(all)
}

/// Whether rings keep the profile.
fn keep(
    rt: &impl Abort,
    alloc: Global,
    profile: Profile,
    rings: &[Vec<Point>],
) -> Result<bool, AllocError> {
    if check_rings(rings).is_some() || !are_proper(rings) {
        return Ok(false);
    }
    let mut count = Count::new();
    if profile == Profile::Feature {
        return Ok(check_feature(alloc, rings, &mut count)?.is_none());
    }
    for &(exterior, after) in &groups(alloc, rings)? {
        assert!(rt; exterior < after && after <= rings.len());
        if check_polygon(alloc, rings, exterior, after, &mut count)?.is_some() {
            return Ok(false);
        }
    }
    Ok(true)
}

/// What becomes of rings, which then keep the profile.
fn mended(
    rt: &impl Abort,
    alloc: Global,
    profile: Profile,
    rings: &[&[(i32, i32)]],
) -> Result<MendedRings, AllocError> {
    let rings = rings_at(rt, alloc, rings)?;
    let found = mend_rings(alloc, profile, &rings, None, &mut Work::new(MUCH_WORK))?;
    let found = found.expect(rt, "mended");
    assert!(rt;
        keep(rt, alloc, profile, &found.rings)?,
        "{:?}",
        found.rings
    );
    Ok(found)
}

/// Twice the area of all rings together.
fn area_of(rings: &[Vec<Point>]) -> i128 {
    let mut area = 0i128;
    for ring in rings {
        area = area.wrapping_add(twice_area(ring));
    }
    area
}

/// Features that break rules, and what becomes of them by the profile `polygon`.
const BY_HAND: &[(&[Coordinates], &[Coordinates])] = &[
    // a bow: its lobes are two triangles
    (
        &[&[(0, 0), (10, 10), (10, 0), (0, 10)]],
        &[&[(0, 0), (5, 5), (0, 10)], &[(5, 5), (10, 0), (10, 10)]],
    ),
    // a square that goes round backwards
    (
        &[&[(0, 0), (0, 10), (10, 10), (10, 0)]],
        &[&[(0, 0), (10, 0), (10, 10), (0, 10)]],
    ),
    // a ring with a spike
    (
        &[&[(0, 0), (10, 0), (15, 0), (10, 0), (10, 10), (0, 10)]],
        &[&[(0, 0), (10, 0), (10, 10), (0, 10)]],
    ),
    // positions that repeat the one before, and a ring of two positions
    (
        &[
            &[(0, 0), (10, 0), (10, 0), (10, 10), (0, 10), (0, 0)],
            &[(3, 3), (4, 4)],
        ],
        &[&[(0, 0), (10, 0), (10, 10), (0, 10)]],
    ),
    // a hole outside of its exterior is a polygon of its own
    (
        &[
            &[(0, 0), (10, 0), (10, 10), (0, 10)],
            &[(20, 0), (20, 10), (30, 10), (30, 0)],
        ],
        &[
            &[(0, 0), (10, 0), (10, 10), (0, 10)],
            &[(20, 0), (30, 0), (30, 10), (20, 10)],
        ],
    ),
    // a polygon and its hole go round backwards
    (
        &[
            &[(0, 0), (0, 10), (10, 10), (10, 0)],
            &[(3, 3), (7, 3), (7, 7), (3, 7)],
        ],
        &[
            &[(0, 0), (10, 0), (10, 10), (0, 10)],
            &[(3, 3), (3, 7), (7, 7), (7, 3)],
        ],
    ),
];

#[test]
fn by_hand(rt: HostRuntime) -> Result<(), AllocError> {
    for (rings, result) in BY_HAND {
        let found = mended(&rt, rt.alloc(), Profile::Polygon, rings)?;
        let wanted = rings_at(&rt, rt.alloc(), result)?;
        assert!(rt; found.rings == wanted, "{:?}", found.rings);
    }
    Ok(())
}

/// Features that break rules, with twice the area that they should have afterwards by each profile,
/// at least and at most.
const BY_AREA: &[(&[Coordinates], (i128, i128))] = &[
    // a hole that touches its exterior in a vertex: its corner there goes, up to (1, 5)
    (
        &[
            &[(0, 0), (10, 0), (10, 10), (0, 10)],
            &[(0, 5), (3, 7), (3, 3)],
        ],
        (192, 192),
    ),
    // two holes that touch in a vertex
    (
        &[
            &[(0, 0), (20, 0), (20, 20), (0, 20)],
            &[(5, 5), (5, 10), (10, 10)],
            &[(10, 10), (15, 15), (15, 10)],
        ],
        (748, 752),
    ),
    // holes that overlap by a square of 2 units
    (
        &[
            &[(0, 0), (20, 0), (20, 20), (0, 20)],
            &[(5, 5), (5, 10), (10, 10), (10, 5)],
            &[(8, 8), (8, 13), (13, 13), (13, 8)],
        ],
        (708, 708),
    ),
    // a star of five points: what its edges go round twice is filled too
    (
        &[&[(0, 30), (100, 30), (20, 90), (50, 0), (80, 90)]],
        (4000, 8000),
    ),
];

#[test]
fn by_area(rt: HostRuntime) -> Result<(), AllocError> {
    for (rings, (least, most)) in BY_AREA {
        for profile in [Profile::Polygon, Profile::Feature] {
            let found = mended(&rt, rt.alloc(), profile, rings)?;
            let area = area_of(&found.rings);
            assert!(rt; *least <= area && area <= *most, "{:?}", found.rings);
        }
    }
    Ok(())
}

// By `polygon` a polygon that keeps all rules stays as it is, between others that don't. Its first
// vertex isn't the least one.
#[test]
fn right_polygons_stay(rt: HostRuntime) -> Result<(), AllocError> {
    let rings: [&[(i32, i32)]; 3] = [
        &[(0, 0), (10, 10), (10, 0), (0, 10)],
        &[(30, 10), (20, 10), (20, 0), (30, 0)],
        &[(40, 0), (50, 0), (50, 0), (50, 10)],
    ];
    let found = mended(&rt, rt.alloc(), Profile::Polygon, &rings)?;
    let wanted = rings_at(&rt, rt.alloc(), &[rings[1]])?;
    for ring in &wanted {
        assert!(rt; found.rings.contains(ring));
    }
    Ok(())
}

// Squares of a raster's cells that were drawn one by one are joined by `feature`.
#[test]
fn squares_are_joined(rt: HostRuntime) -> Result<(), AllocError> {
    let rings: [&[(i32, i32)]; 3] = [
        &[(0, 0), (10, 0), (10, 10), (0, 10)],
        &[(10, 0), (20, 0), (20, 10), (10, 10)],
        &[(20, 10), (30, 10), (30, 20), (20, 20)],
    ];
    let found = mended(&rt, rt.alloc(), Profile::Feature, &rings)?;
    let area = area_of(&found.rings);
    assert!(rt; 596 <= area && area <= 604, "{:?}", found.rings);
    Ok(())
}

// With no work left nothing is mended.
#[test]
fn no_work(rt: HostRuntime) -> Result<(), AllocError> {
    let rings = rings_at(&rt, rt.alloc(), &[&[(0, 0), (10, 10), (10, 0), (0, 10)]])?;
    for profile in [Profile::Polygon, Profile::Feature] {
        let found = mend_rings(rt.alloc(), profile, &rings, None, &mut Work::new(0))?;
        assert!(rt; found.is_none());
    }
    Ok(())
}
