//! Polygons of a feature whose bounds may overlap those of others.
ghost use Rattle.std.specs.Prelude.{◌≡◌, ◌≢◌, ◌⊎◌, ◌-◌, ◌<◌, length, IfOk, IsTrue, ◌<ℤ◌};
ghost use Rattle.mvt_feature.specs.Calls.Islands.{AreMarked};
ghost use Rattle.mvt_feature.specs.Calls.Cells.{AreAllMarked, AreCells, AreCellsOf, AreParted, AreRefined, AreRingSpans, AreSharing, AreSpansOf, IsCellOrder, order_at};
ghost use Rattle.mvt_rules.specs.Ring.{ArePolygonRings};
ghost use Rattle.mvt_polygon.specs.Polygons.{ArePolygons};
ghost use Rattle.mvt_sweep.specs.Rings.{rings_of, AreProperRings};

use crate::feature::islands::still_crowded;
use crate::feature::lands::{beside, have_lakes, lands};
use mvt_plane::Point;
use mvt_sweep::Bounds;
use std::alloc::{AllocError, Global};

/// Of each polygon whether it may meet or lie in another one. Where it is not crowded, its bounds
/// are apart from those of each other one, or the one of the two is an island in a lake of the
/// other. Polygons come into cells along one axis, the other, and the first one again, so this
/// takes the time of a sort of all and two of those that still share a cell; where a land has
/// lakes, three times as much.
pub(super) fn crowded(
    alloc: Global,
    rings: &[Vec<Point>],
    polygons: &[(usize, usize)],
) -> Result<Vec<bool>, AllocError>
    requires sound { ArePolygonRings (rings_of rings.now) }
    requires drawn { AreProperRings (rings_of rings.now) }
    requires listed { ArePolygons (rings_of rings.now) polygons.now }
    ensures { IfOk result (λ marks. AreMarked (rings_of rings.now) polygons.now marks.items) }
{
    let (across, upward) = spans_of(alloc, rings, polygons)?;
    let cells = cells_of(alloc, &across, &upward)?;
    let shared = shared_cells(alloc, &cells)?;
    let lands = lands(alloc, polygons, &cells)?;
    if !have_lakes(polygons, &lands, &shared) {
        return Ok(shared);
    }
    let beside = beside(alloc, &across, &upward, &cells, &lands)?;
    // these take the memory that those of rings will need
    drop(across);
    drop(upward);
    still_crowded(alloc, rings, polygons, &cells, &lands, &beside)
}

/// Of each polygon the least and the greatest coordinate along one axis, and along the other.
fn spans_of(
    alloc: Global,
    rings: &[Vec<Point>],
    polygons: &[(usize, usize)],
) -> Result<(Vec<(i32, i32)>, Vec<(i32, i32)>), AllocError>
    requires drawn { AreProperRings (rings_of rings.now) }
    requires listed { ArePolygons (rings_of rings.now) polygons.now }
    ensures { IfOk result (λ spans.
        AreSpansOf (rings_of rings.now) polygons.now (length polygons.now) spans.0.items
        spans.1.items) }
{
    let mut across = Vec::with_capacity(alloc, polygons.len())?;
    let mut upward = Vec::with_capacity(alloc, polygons.len())?;
    for polygon in 0..polygons.len() {
        let (exterior, after) = polygons[polygon];
        let bounds = Bounds::of_polygon(rings, exterior, after);
        across.push((bounds.left, bounds.right))?;
        upward.push((bounds.low, bounds.high))?;
    }
    Ok((across, upward))
}

/// Of each ring the least and the greatest coordinate along one axis, and along the other.
pub(super) fn ring_spans(
    alloc: Global,
    rings: &[Vec<Point>],
) -> Result<(Vec<(i32, i32)>, Vec<(i32, i32)>), AllocError>
    requires { AreProperRings (rings_of rings.now) }
    ensures { IfOk result (λ spans.
        AreRingSpans (rings_of rings.now) (length rings.now) spans.0.items spans.1.items) }
{
    let mut across = Vec::with_capacity(alloc, rings.len())?;
    let mut upward = Vec::with_capacity(alloc, rings.len())?;
    for ring in 0..rings.len() {
        let bounds = Bounds::of(&rings[ring]);
        across.push((bounds.left, bounds.right))?;
        upward.push((bounds.low, bounds.high))?;
    }
    Ok((across, upward))
}

/// A cell for each number, by spans along two axes: where two have different cells, their spans
/// along an axis are apart.
fn cells_of(
    alloc: Global,
    across: &[(i32, i32)],
    upward: &[(i32, i32)],
) -> Result<Vec<usize>, AllocError>
    requires { length upward.now ≡ length across.now }
    ensures known { IfOk result (λ cells. AreCells (length across.now) cells.items) }
    ensures parted { IfOk result (λ cells. AreCellsOf across.now upward.now cells.items) }
{
    let mut cells = vec![in alloc; 0; across.len()]?;
    part_in_turn(alloc, across, upward, &mut cells)?;
    Ok(cells)
}

/// Parts each cell along one axis, along the other, and once more along the first one.
pub(super) fn part_in_turn(
    alloc: Global,
    across: &[(i32, i32)],
    upward: &[(i32, i32)],
    cells: &mut [usize],
) -> Result<(), AllocError>
    requires across { length across.now ≡ length cells.old }
    requires upward { length upward.now ≡ length cells.old }
    ensures known { IfOk result (λ _. AreCells (length cells.old) cells.new) }
    ensures parted { IfOk result (λ _. AreRefined across.now upward.now cells.old cells.new) }
{
    let all = vec![in alloc; true; cells.len()]?;
    part_cells(alloc, across, cells, &all)?;
    part_shared(alloc, upward, cells)?;
    part_shared(alloc, across, cells)?;
    Ok(())
}

/// Parts each cell of several numbers along an axis.
fn part_shared(alloc: Global, spans: &[(i32, i32)], cells: &mut [usize]) -> Result<(), AllocError>
    requires spans { length spans.now ≡ length cells.old }
    requires cells { AreCells (length cells.old) cells.old }
    ensures known { IfOk result (λ _. AreCells (length cells.old) cells.new) }
    ensures parted { IfOk result (λ _. AreParted spans.now cells.old cells.new) }
{
    let shared = shared_cells(alloc, cells)?;
    part_cells(alloc, spans, cells, &shared)
}

/// Parts each cell where no span of it, from the least to the greatest coordinate along an axis,
/// goes across. A new cell is the first of its numbers. Only marked numbers are checked: all that
/// share a cell are.
fn part_cells(
    alloc: Global,
    spans: &[(i32, i32)],
    cells: &mut [usize],
    marks: &[bool],
) -> Result<(), AllocError>
    requires spans { length spans.now ≡ length cells.old }
    requires marks { AreSharing cells.old marks.now }
    ensures all { IfOk result (λ _. AreAllMarked (length cells.old) marks.now
        → AreCells (length cells.old) cells.new) }
    ensures known { IfOk result (λ _. AreCells (length cells.old) cells.old
        → AreCells (length cells.old) cells.new) }
    ensures parted { IfOk result (λ _. AreParted spans.now cells.old cells.new) }
{
    let order = cell_order(alloc, spans, cells, marks)?;
    let mut cell = 0;
    let mut reach = i32::MIN;
    for at in 0..order.len() {
        let (_, _, number) = order[at];
        let (_, end) = spans[number];
        if begins_cell(&order, at, reach) {
            cell = number;
            reach = end;
        } else {
            reach = reach.max(end);
        }
        cells[number] = cell;
    }
    Ok(())
}

/// The marked numbers by their cells and, in a cell, by the least coordinates: each with its cell
/// and its least coordinate.
fn cell_order(
    alloc: Global,
    spans: &[(i32, i32)],
    cells: &[usize],
    marks: &[bool],
) -> Result<Vec<(usize, i32, usize)>, AllocError>
    requires spans { length spans.now ≡ length cells.now }
    requires marks { length marks.now ≡ length cells.now }
    ensures { IfOk result (λ order. IsCellOrder spans.now cells.now marks.now order.items) }
{
    let marked = marks.iter().filter(|it| **it).count();
    let mut order = Vec::with_capacity(alloc, marked)?;
    for number in 0..cells.len() {
        if marks[number] {
            let (least, _) = spans[number];
            order.push((cells[number], least, number))?;
        }
    }
    order.sort_unstable_by_key(|it| (it.0, it.1));
    Ok(order)
}

/// Whether a new cell begins at this place of an order: at the first one, with another cell, or
/// after all spans so far of the new cell before.
fn begins_cell(order: &[(usize, i32, usize)], at: usize, reach: i32) -> bool
    requires { at < length order.now }
    ensures first { (at ≡ 0) → IsTrue result }
    ensures apart { IsTrue result → (at ≡ 0)
        ⊎ (((order_at order.now (at - 1)).0 ≢ (order_at order.now at).0)
        ⊎ (reach <ℤ (order_at order.now at).1)) }
{
    if at == 0 {
        return true;
    }
    let (cell, least, _) = order[at];
    let (before, _, _) = order[at - 1];
    cell != before || reach < least
}

/// Of each number whether its cell is that of another one too.
pub(super) fn shared_cells(alloc: Global, cells: &[usize]) -> Result<Vec<bool>, AllocError>
    requires { AreCells (length cells.now) cells.now }
    ensures { IfOk result (λ shared. AreSharing cells.now shared.items) }
{
    let owners = owners(alloc, cells)?;
    let mut shared = vec![in alloc; false; cells.len()]?;
    for number in 0..cells.len() {
        let owner = owners[cells[number]];
        if owner != number {
            shared[owner] = true;
            shared[number] = true;
        }
    }
    Ok(shared)
}

/// Of each cell one of its numbers.
fn owners(alloc: Global, cells: &[usize]) -> Result<Vec<usize>, AllocError>
    requires { AreCells (length cells.now) cells.now }
    ensures { IfOk result (λ owners. AreCells (length cells.now) owners.items) }
{
    let mut owners = vec![in alloc; 0; cells.len()]?;
    for number in 0..cells.len() {
        owners[cells[number]] = number;
    }
    Ok(owners)
}
