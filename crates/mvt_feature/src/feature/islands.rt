//! Islands: polygons that lie in a hole of their cell's land are apart from it.
ghost use Rattle.std.specs.Prelude.{◌≡◌, ◌<◌, ◌≤◌, length, IfNone, IfOk, IfSome, IsTrue};
ghost use Rattle.mvt_plane.specs.Geometry.Inside.{IsInside};
ghost use Rattle.mvt_feature.specs.Calls.Cells.{AreCells};
ghost use Rattle.mvt_feature.specs.Calls.Islands.{AreMarked, IsIslandOf, LiesInRing};
ghost use Rattle.mvt_feature.specs.Calls.Lands.{AreCellsApart, AreFailing, AreFarFromNeighbours, AreLakes, AreLands, AreOfFailing, IsOnlyLake};
ghost use Rattle.mvt_polygon.specs.Polygons.{ArePolygons};
ghost use Rattle.mvt_sweep.specs.Rings.{rings_of, AreProperRings};

use super::lakes::lakes;
use super::lies_in::lies_in;
use mvt_plane::{Point, inside};
use mvt_sweep::Bounds;
use std::alloc::{AllocError, Global};

/// How many vertices of lakes are checked for each vertex of the feature, at most.
const LAKE_VERTICES: usize = 4;

/// Of each polygon whether it is crowded all the same. A cell is not, where each polygon of it but
/// its land is an island in a lake of the land, and they are not beside each other.
pub(super) fn still_crowded(
    alloc: Global,
    rings: &[Vec<Point>],
    polygons: &[(usize, usize)],
    cells: &[usize],
    lands: &[usize],
    beside: &[bool],
) -> Result<Vec<bool>, AllocError>
    requires drawn { AreProperRings (rings_of rings.now) }
    requires listed { ArePolygons (rings_of rings.now) polygons.now }
    requires cells { AreCells (length polygons.now) cells.now }
    requires parted { AreCellsApart (rings_of rings.now) polygons.now cells.now }
    requires lands { AreLands cells.now (length cells.now) lands.now }
    requires beside { AreFarFromNeighbours (rings_of rings.now) polygons.now cells.now lands.now
        beside.now }
    ensures { IfOk result (λ marks. AreMarked (rings_of rings.now) polygons.now marks.items) }
{
    let lakes = lakes(alloc, rings, polygons, cells, lands, beside)?;
    let failing = failing_cells(alloc, rings, polygons, cells, lands, &lakes)?;
    of_failing(alloc, cells, &failing)
}

/// Of each cell whether one of its polygons, but for its land, isn't an island in its lake.
fn failing_cells(
    alloc: Global,
    rings: &[Vec<Point>],
    polygons: &[(usize, usize)],
    cells: &[usize],
    lands: &[usize],
    lakes: &[Option<usize>],
) -> Result<Vec<bool>, AllocError>
    requires drawn { AreProperRings (rings_of rings.now) }
    requires listed { ArePolygons (rings_of rings.now) polygons.now }
    requires cells { AreCells (length polygons.now) cells.now }
    requires lands { AreLands cells.now (length cells.now) lands.now }
    requires lakes { AreLakes (rings_of rings.now) polygons.now cells.now lands.now
        (length polygons.now) lakes.now }
    ensures { IfOk result (λ failing.
        AreFailing (rings_of rings.now) polygons.now cells.now lands.now lakes.now
        (length polygons.now) failing.items) }
{
    let mut budget = lake_vertices(rings);
    let mut failing = vec![in alloc; false; cells.len()]?;
    for polygon in 0..polygons.len() {
        let cell = cells[polygon];
        let land = lands[cell];
        if land != polygon && !failing[cell] {
            let lake = lakes[polygon];
            failing[cell] = !is_settled(
                rings,
                polygons[polygon],
                polygons[land],
                lake,
                &mut budget,
            );
        }
    }
    Ok(failing)
}

/// How many vertices of lakes may be checked in a feature.
fn lake_vertices(rings: &[Vec<Point>]) -> usize {
    let mut vertices: usize = 0;
    for ring in rings {
        vertices = vertices.saturating_add(ring.len());
    }
    vertices.saturating_mul(LAKE_VERTICES)
}

/// Whether the polygon is an island in this lake of the land. Takes the lake's vertices from the
/// budget, and reports no more islands where that has too few left.
fn is_settled(
    rings: &[Vec<Point>],
    polygon: (usize, usize),
    land: (usize, usize),
    lake: Option<usize>,
    budget: &mut usize,
) -> bool
    requires drawn { AreProperRings (rings_of rings.now) }
    requires there { polygon.0 < length rings.now }
    requires land { land.0 < length rings.now }
    requires within { land.1 ≤ length rings.now }
    requires lake { IfSome lake (IsOnlyLake (rings_of rings.now)
        (record { exterior = polygon.0; after = polygon.1 })
        (record { exterior = land.0; after = land.1 })) }
    ensures some { IsTrue result → IfNone lake ⊥ }
    ensures island { IsTrue result → IsIslandOf (rings_of rings.now)
        (record { exterior = polygon.0; after = polygon.1 })
        (record { exterior = land.0; after = land.1 }) }
{
    let Some(hole) = lake else {
        return false;
    };
    let (exterior, after) = polygon;
    let around = &rings[hole];
    if after != exterior + 1 || *budget < around.len() {
        return false;
    }
    *budget -= around.len();
    is_island(&rings[exterior], around, rings[land.0][0])
}

/// Whether the ring lies in the hole, and the vertex of the land around is in neither.
fn is_island(ring: &[Point], around: &[Point], vertex: Point) -> bool
    requires { 0 < length ring.now }
    ensures within { IsTrue result → LiesInRing ring.now around.now }
    ensures not_in_hole { IsTrue result → ¬ IsInside vertex around.now }
    ensures not_in_ring { IsTrue result → ¬ IsInside vertex ring.now }
{
    !inside(vertex, around) && !inside(vertex, ring) && lies_in(ring, around, &Bounds::of(ring))
}

/// Of each polygon whether its cell fails.
fn of_failing(alloc: Global, cells: &[usize], failing: &[bool]) -> Result<Vec<bool>, AllocError>
    requires cells { AreCells (length cells.now) cells.now }
    requires failing { length failing.now ≡ length cells.now }
    ensures { IfOk result (λ marks.
        AreOfFailing cells.now failing.now (length cells.now) marks.items) }
{
    let mut marks = Vec::with_capacity(alloc, cells.len())?;
    for polygon in 0..cells.len() {
        marks.push(failing[cells[polygon]])?;
    }
    Ok(marks)
}
