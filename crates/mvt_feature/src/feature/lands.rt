//! The lands of cells: polygons of which the others of their cell may be islands.
ghost use Rattle.std.specs.Prelude.{◌≡◌, length, IfOk};
ghost use Rattle.mvt_feature.specs.Calls.Cells.{AreCells};
ghost use Rattle.mvt_feature.specs.Calls.Lands.{AreApartFromNeighbours, AreLands, AreWithoutLands};

use super::crowded::{part_in_turn, shared_cells};
use std::alloc::{AllocError, Global};

/// Of the cell of each polygon, one of its polygons: the first one of those with the most rings.
pub(super) fn lands(
    alloc: Global,
    polygons: &[(usize, usize)],
    cells: &[usize],
) -> Result<Vec<usize>, AllocError>
    requires { AreCells (length polygons.now) cells.now }
    ensures { IfOk result (λ lands. AreLands cells.now (length polygons.now) lands.items) }
{
    let mut lands = vec![in alloc; 0; cells.len()]?;
    for polygon in 0..polygons.len() {
        let cell = cells[polygon];
        let land = lands[cell];
        if cells[land] != cell || ring_count(polygons[land]) < ring_count(polygons[polygon]) {
            lands[cell] = polygon;
        }
    }
    Ok(lands)
}

/// How many rings a polygon has.
fn ring_count(polygon: (usize, usize)) -> usize {
    let (exterior, after) = polygon;
    after.saturating_sub(exterior)
}

/// Whether a land with a hole is marked.
pub(super) fn have_lakes(polygons: &[(usize, usize)], lands: &[usize], marks: &[bool]) -> bool
    requires lands { AreCells (length polygons.now) lands.now }
    requires marks { length marks.now ≡ length polygons.now }
{
    for cell in 0..lands.len() {
        let land = lands[cell];
        if marks[land] && ring_count(polygons[land]) > 1 {
            return true;
        }
    }
    false
}

/// Of each polygon whether its bounds may overlap those of another one of its cell, where neither
/// is the cell's land.
pub(super) fn beside(
    alloc: Global,
    across: &[(i32, i32)],
    upward: &[(i32, i32)],
    cells: &[usize],
    lands: &[usize],
) -> Result<Vec<bool>, AllocError>
    requires across { length across.now ≡ length cells.now }
    requires upward { length upward.now ≡ length cells.now }
    requires cells { AreCells (length cells.now) cells.now }
    requires lands { AreLands cells.now (length cells.now) lands.now }
    ensures { IfOk result (λ marks.
        AreApartFromNeighbours across.now upward.now cells.now lands.now marks.items) }
{
    let mut others = without_lands(alloc, cells, lands)?;
    part_in_turn(alloc, across, upward, &mut others)?;
    shared_cells(alloc, &others)
}

/// The cells of polygons, but that each land has one of its own.
fn without_lands(alloc: Global, cells: &[usize], lands: &[usize]) -> Result<Vec<usize>, AllocError>
    requires cells { AreCells (length cells.now) cells.now }
    requires lands { AreLands cells.now (length cells.now) lands.now }
    ensures { IfOk result (λ others.
        AreWithoutLands cells.now lands.now (length cells.now) others.items) }
{
    let mut others = vec![in alloc; 0; cells.len()]?;
    for polygon in 0..cells.len() {
        let cell = cells[polygon];
        if lands[cell] == polygon {
            others[polygon] = usize::MAX - polygon;
        } else {
            others[polygon] = cell;
        }
    }
    Ok(others)
}
