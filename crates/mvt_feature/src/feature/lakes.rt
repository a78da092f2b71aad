//! Lakes: the holes of lands in which other polygons may be islands.
ghost use Rattle.std.specs.Prelude.{◌≡◌, ◌<◌, ◌≤◌, ◌⊎◌, ℕ, List, length, slice_index, IfOk, IfSome};
ghost use Rattle.mvt_plane.specs.Position.{Position};
ghost use Rattle.mvt_feature.specs.Calls.Cells.{AreCells};
ghost use Rattle.mvt_feature.specs.Calls.Lands.{AreFirstCells, AreHeld, AreLakes, AreLakesParted, AreLakesUnmarked, AreLands, HoldsHole, IsHeld, IsLakeOf, IsSingleLakeOf};
ghost use Rattle.mvt_polygon.specs.Polygons.{ArePolygons};
ghost use Rattle.mvt_sweep.specs.Rings.{rings_of, AreProperRings};
ghost use Rattle.mvt_feature.specs.declared.feature.lakes.Held.TheVariants.{One};

use super::crowded::{part_in_turn, ring_spans};
use mvt_plane::Point;
use std::alloc::{AllocError, Global};

/// The holes of a cell of rings.
#[derive(Clone, Copy)]
enum Held {
    /// There is none.
    Empty,
    /// This is the only one.
    One(usize),
    /// There are more.
    Several,
}

impl Held {
    /// With one hole more.
    fn with(self, hole: usize) -> Held
        ensures own { HoldsHole result hole }
        ensures kept { (other : ℕ) → HoldsHole self other → HoldsHole result other }
    {
        match self {
            Held::Empty => Held::One(hole),
            Held::One(_) | Held::Several => Held::Several,
        }
    }
}

/// Of each polygon that isn't marked the one hole of its land in which it may be. Its bounds are
/// apart from those of all other holes of the land.
pub(super) fn lakes(
    alloc: Global,
    rings: &[Vec<Point>],
    polygons: &[(usize, usize)],
    cells: &[usize],
    lands: &[usize],
    marks: &[bool],
) -> Result<Vec<Option<usize>>, AllocError>
    requires drawn { AreProperRings (rings_of rings.now) }
    requires listed { ArePolygons (rings_of rings.now) polygons.now }
    requires cells { AreCells (length polygons.now) cells.now }
    requires lands { AreLands cells.now (length cells.now) lands.now }
    requires marks { length marks.now ≡ length polygons.now }
    ensures only { IfOk result (λ lakes.
        AreLakes (rings_of rings.now) polygons.now cells.now lands.now (length polygons.now)
        lakes.items) }
    ensures unmarked { IfOk result (λ lakes. AreLakesUnmarked marks.now lakes.items) }
{
    if !have_several(polygons, lands) {
        return single_lakes(alloc, polygons, cells, lands, marks);
    }
    let ring_cells = ring_cells(alloc, rings, polygons, cells, lands)?;
    let held = held_holes(alloc, rings, polygons, &ring_cells)?;
    let mut lakes = Vec::with_capacity(alloc, polygons.len())?;
    for polygon in 0..polygons.len() {
        let (exterior, _) = polygons[polygon];
        let land = polygons[lands[cells[polygon]]];
        let lake = lake_of(land, held[ring_cells[exterior]], marks[polygon]);
        lakes.push(lake)?;
    }
    Ok(lakes)
}

/// Whether a land has several holes.
fn have_several(polygons: &[(usize, usize)], lands: &[usize]) -> bool
    requires { AreCells (length polygons.now) lands.now }
{
    for cell in 0..lands.len() {
        let (exterior, after) = polygons[lands[cell]];
        if after.saturating_sub(exterior) > 2 {
            return true;
        }
    }
    false
}

/// The same as `lakes` where no land has several holes: where one has a hole, that is the only one.
fn single_lakes(
    alloc: Global,
    polygons: &[(usize, usize)],
    cells: &[usize],
    lands: &[usize],
    marks: &[bool],
) -> Result<Vec<Option<usize>>, AllocError>
    requires cells { AreCells (length polygons.now) cells.now }
    requires lands { AreLands cells.now (length cells.now) lands.now }
    requires marks { length marks.now ≡ length polygons.now }
    ensures only { (rings : List (List Position))
        → IfOk result (λ lakes.
        AreLakes rings polygons.now cells.now lands.now (length polygons.now) lakes.items) }
    ensures unmarked { IfOk result (λ lakes. AreLakesUnmarked marks.now lakes.items) }
{
    let mut lakes = Vec::with_capacity(alloc, polygons.len())?;
    for polygon in 0..polygons.len() {
        let land = polygons[lands[cells[polygon]]];
        lakes.push(single_lake(land, marks[polygon]))?;
    }
    Ok(lakes)
}

/// The hole of the land, if it has just one, and the polygon isn't marked.
fn single_lake(land: (usize, usize), mark: bool) -> Option<usize>
    ensures { IfSome result (IsSingleLakeOf (record { exterior = land.0; after = land.1 }) mark) }
{
    let (exterior, after) = land;
    let hole = exterior.checked_add(1)?;
    if !mark && hole.checked_add(1) == Some(after) {
        Some(hole)
    } else {
        None
    }
}

/// The one hole that is held, if it is a hole of the land, and the polygon isn't marked.
fn lake_of(land: (usize, usize), held: Held, mark: bool) -> Option<usize>
    ensures { IfSome result (IsLakeOf (record { exterior = land.0; after = land.1 }) held mark) }
{
    match held {
        Held::One(hole) if !mark && land.0 < hole && hole < land.1 => Some(hole),
        _ => None,
    }
}

/// A cell for each ring. Where the exterior of a polygon and a hole of its land have different
/// cells, their bounds are apart.
fn ring_cells(
    alloc: Global,
    rings: &[Vec<Point>],
    polygons: &[(usize, usize)],
    cells: &[usize],
    lands: &[usize],
) -> Result<Vec<usize>, AllocError>
    requires drawn { AreProperRings (rings_of rings.now) }
    requires listed { ArePolygons (rings_of rings.now) polygons.now }
    requires cells { AreCells (length polygons.now) cells.now }
    requires lands { AreLands cells.now (length cells.now) lands.now }
    ensures known { IfOk result (λ its. AreCells (length rings.now) its.items) }
    ensures parted { IfOk result (λ its.
        AreLakesParted (rings_of rings.now) polygons.now cells.now lands.now its.items) }
{
    let (across, upward) = ring_spans(alloc, rings)?;
    let mut its = first_cells(alloc, rings, polygons, cells, lands)?;
    part_in_turn(alloc, &across, &upward, &mut its)?;
    Ok(its)
}

/// Of each ring the cell of its polygon, but for exteriors of lands and for holes of the others:
/// these have another one.
fn first_cells(
    alloc: Global,
    rings: &[Vec<Point>],
    polygons: &[(usize, usize)],
    cells: &[usize],
    lands: &[usize],
) -> Result<Vec<usize>, AllocError>
    requires listed { ArePolygons (rings_of rings.now) polygons.now }
    requires cells { AreCells (length polygons.now) cells.now }
    requires lands { AreLands cells.now (length cells.now) lands.now }
    ensures { IfOk result (λ first.
        AreFirstCells polygons.now cells.now lands.now (length polygons.now) (length rings.now)
        first.items) }
{
    let mut first = vec![in alloc; polygons.len(); rings.len()]?;
    for polygon in 0..polygons.len() {
        let (exterior, after) = polygons[polygon];
        let cell = cells[polygon];
        if lands[cell] == polygon {
            write_cell(&mut first, exterior + 1, after, cell);
        } else {
            first[exterior] = cell;
        }
    }
    Ok(first)
}

/// Writes the cell for the rings from one number up to another.
fn write_cell(first: &mut [usize], from: usize, to: usize, cell: usize)
    requires { to ≤ length first.old }
    ensures size { length first.new ≡ length first.old }
    ensures written { (ring : ℕ) → from ≤ ring → ring < to → slice_index first.new ring ≡ cell }
    ensures kept { (ring : ℕ) → (ring < from) ⊎ (to ≤ ring)
        → slice_index first.new ring ≡ slice_index first.old ring }
{
    for ring in from..to {
        first[ring] = cell;
    }
}

/// The holes of each cell of rings.
fn held_holes(
    alloc: Global,
    rings: &[Vec<Point>],
    polygons: &[(usize, usize)],
    ring_cells: &[usize],
) -> Result<Vec<Held>, AllocError>
    requires listed { ArePolygons (rings_of rings.now) polygons.now }
    requires cells { AreCells (length rings.now) ring_cells.now }
    ensures { IfOk result (λ held.
        AreHeld polygons.now ring_cells.now (length polygons.now) held.items) }
{
    let mut held = vec![in alloc; Held::Empty; rings.len()]?;
    for polygon in 0..polygons.len() {
        let (exterior, after) = polygons[polygon];
        hold(&mut held, ring_cells, exterior + 1, after);
    }
    Ok(held)
}

/// Adds the holes from one number up to another to their cells.
fn hold(held: &mut [Held], ring_cells: &[usize], from: usize, to: usize)
    requires size { length held.old ≡ length ring_cells.now }
    requires cells { AreCells (length ring_cells.now) ring_cells.now }
    requires within { to ≤ length ring_cells.now }
    ensures size { length held.new ≡ length held.old }
    ensures added { (hole : ℕ) → from ≤ hole → hole < to → IsHeld ring_cells.now held.new hole }
    ensures kept { (hole : ℕ) → IsHeld ring_cells.now held.old hole
        → IsHeld ring_cells.now held.new hole }
{
    for hole in from..to {
        let cell = ring_cells[hole];
        held[cell] = held[cell].with(hole);
    }
}
