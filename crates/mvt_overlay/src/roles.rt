//! Which rings are exteriors, and whose holes the others are.
ghost use Rattle.std.specs.Prelude.{◌≤◌};

mod around;
mod cleaned;
mod nesting;
mod tested;

use crate::faces::stop::{answered, spend_down};
use crate::roles::cleaned::drawn_rings;
use crate::roles::nesting::Nesting;
use mvt_plane::{Point, twice_area};
use mvt_segments::Work;
use std::alloc::{AllocError, Global};

/// The polygons that the rings are meant to be: of each its rings, the exterior first, whatever
/// their areas' signs.
///
/// Positions that repeat the one before are left out, and then rings of fewer than three positions.
/// A ring of positive area is an exterior, and one of negative area a hole of the exterior before
/// it. But where the first ring that has an area has a negative one, rings were wound without care,
/// or all the other way round. Then a ring in an even number of others is an exterior, and one in an
/// odd number a hole of the least one around it. A ring of area 0 is a polygon of its own, after the
/// others: it may still go round places, as a bow does.
///
/// Polygons, and the holes of each, keep the order of the rings. None where the work doesn't
/// suffice. The only error is that memory was refused.
pub fn polygons_meant(
    alloc: Global,
    rings: &[Vec<Point>],
    work: &mut Work,
) -> Result<Option<Vec<Vec<Vec<Point>>>>, AllocError>
    ensures no_more { work.new ≤ work.old }
{
    let rings = drawn_rings(alloc, rings)?;
    let areas = areas_of(alloc, &rings)?;
    if !begin_backwards(&areas) {
        return Ok(Some(by_area(alloc, rings, &areas)?));
    }
    let nesting = nesting_of(alloc, &views_of(alloc, &rings)?, work)?;
    match nesting {
        Some(nesting) => Ok(Some(by_nesting(alloc, rings, &areas, &nesting)?)),
        None => Ok(None),
    }
}

/// Of each of these rings, which are holes that lie outside of their exteriors, the number of the
/// polygon whose exterior is the least one around it, if there is one. Where rings meet, what is
/// around a ring is what is around most of its edges or positions. None where the work doesn't
/// suffice. The only error is that memory was refused.
pub fn homes_of_strays(
    alloc: Global,
    strays: &[Vec<Point>],
    polygons: &[Vec<Vec<Point>>],
    work: &mut Work,
) -> Result<Option<Vec<Option<u32>>>, AllocError>
    ensures no_more { work.new ≤ work.old }
{
    let mut views: Vec<&[Point]> = Vec::with_capacity(alloc, polygons.len())?;
    for polygon in polygons {
        views.push(exterior_of(polygon))?;
    }
    for stray in strays {
        views.push(stray.as_slice())?;
    }
    match nesting_of(alloc, &views, work)? {
        Some(nesting) => Ok(Some(nesting.nearest_of_first(alloc, polygons.len())?)),
        None => Ok(None),
    }
}

/// Which ring is directly around each one. None where the work doesn't suffice.
fn nesting_of(
    alloc: Global,
    rings: &[&[Point]],
    work: &mut Work,
) -> Result<Option<Nesting>, AllocError>
    ensures no_more { work.new ≤ work.old }
{
    let mut left = *work;
    let found = Nesting::of(alloc, rings, &mut left);
    spend_down(work, left);
    answered(found)
}

/// The rings as slices.
fn views_of(alloc: Global, rings: &[Vec<Point>]) -> Result<Vec<&[Point]>, AllocError> {
    let mut views = Vec::with_capacity(alloc, rings.len())?;
    for ring in rings {
        views.push(ring.as_slice())?;
    }
    Ok(views)
}

/// The exterior of a polygon; of one with no rings no positions.
fn exterior_of(polygon: &[Vec<Point>]) -> &[Point] {
    match polygon.first() {
        Some(exterior) => exterior.as_slice(),
        None => &[],
    }
}

/// Twice the area of each ring.
fn areas_of(alloc: Global, rings: &[Vec<Point>]) -> Result<Vec<i128>, AllocError> {
    let mut areas = Vec::with_capacity(alloc, rings.len())?;
    for ring in rings {
        areas.push(twice_area(ring))?;
    }
    Ok(areas)
}

/// Whether the first of the areas that isn't 0 is negative.
fn begin_backwards(areas: &[i128]) -> bool {
    for area in areas {
        if *area != 0 {
            return *area < 0;
        }
    }
    false
}

/// Polygons of rings by the signs of their areas.
fn by_area(
    alloc: Global,
    rings: Vec<Vec<Point>>,
    areas: &[i128],
) -> Result<Vec<Vec<Vec<Point>>>, AllocError> {
    let mut polygons: Vec<Vec<Vec<Point>>> = Vec::new(alloc);
    let mut flat = Vec::new(alloc);
    for (ring, area) in rings.into_iter().zip(areas) {
        if *area == 0 {
            flat.push(vec![in alloc; ring]?)?;
            continue;
        }
        match polygons.last_mut() {
            Some(polygon) if *area < 0 => polygon.push(ring)?,
            _ => polygons.push(vec![in alloc; ring]?)?,
        }
    }
    polygons.append(&mut flat)?;
    Ok(polygons)
}

/// Polygons of rings by which of them are around each.
fn by_nesting(
    alloc: Global,
    rings: Vec<Vec<Point>>,
    areas: &[i128],
    nesting: &Nesting,
) -> Result<Vec<Vec<Vec<Point>>>, AllocError> {
    let are_odd = nesting.are_odd(alloc)?;
    let mut polygons: Vec<Vec<Vec<Point>>> = Vec::new(alloc);
    let mut flat = Vec::new(alloc);
    let mut holes = Vec::new(alloc);
    let mut polygon_of = vec![in alloc; 0; rings.len()]?;
    for (number, ring) in rings.into_iter().enumerate() {
        if areas.get(number) == Some(&0) {
            flat.push(vec![in alloc; ring]?)?;
        } else if are_odd.get(number).copied().unwrap_or(false) {
            holes.push((nesting.parent(number), ring))?;
        } else {
            if let Some(place) = polygon_of.get_mut(number) {
                *place = polygons.len();
            }
            polygons.push(vec![in alloc; ring]?)?;
        }
    }
    add_holes(&mut polygons, &polygon_of, holes)?;
    polygons.append(&mut flat)?;
    Ok(polygons)
}

/// Adds holes to the polygons of the rings around them.
fn add_holes(
    polygons: &mut [Vec<Vec<Point>>],
    polygon_of: &[usize],
    holes: Vec<(Option<usize>, Vec<Point>)>,
) -> Result<(), AllocError> {
    for (parent, hole) in holes {
        if let Some(polygon) = polygon_around(polygons, polygon_of, parent) {
            polygon.push(hole)?;
        }
    }
    Ok(())
}

/// The polygon of the ring around another one.
fn polygon_around<'a>(
    polygons: &'a mut [Vec<Vec<Point>>],
    polygon_of: &[usize],
    parent: Option<usize>,
) -> Option<&'a mut Vec<Vec<Point>>> {
    let number = *polygon_of.get(parent?)?;
    polygons.get_mut(number)
}
