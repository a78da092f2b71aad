//! The bounds of later polygons, by where they begin along the x axis.
ghost use Rattle.std.specs.Prelude.{◌≡◌, ◌≤◌, ◌<ℤ◌, ℕ, ℤ, IfOk, length, slice_get};
ghost use Rattle.mvt_feature.specs.Calls.Bounds.{AreBoundsInOrder, AreLaterBounds, AreReaches, IsSpread};
ghost use Rattle.mvt_polygon.specs.Polygons.{ArePolygons};
ghost use Rattle.mvt_sweep.specs.Rings.{rings_of, AreProperRings};

use mvt_plane::Point;
use mvt_sweep::Bounds;
use std::alloc::{AllocError, Global};

/// The bounds of the exteriors of the polygons from one on.
#[derive(Drop)]
pub(super) struct Spread {
    /// Those of each polygon.
    pub(super) bounds: Vec<Bounds>,
    /// The left side of each, with its number among them, in the order of the left sides.
    pub(super) order: Vec<(i32, usize)>,
    /// In this order, the greatest right side of each and those before it.
    pub(super) reaches: Vec<i32>,
}

impl Spread {
    /// Those of the polygons from `later` on.
    pub(super) fn of(
        alloc: Global,
        rings: &[Vec<Point>],
        polygons: &[(usize, usize)],
        later: usize,
    ) -> Result<Spread, AllocError>
        requires drawn { AreProperRings (rings_of rings.now) }
        requires listed { ArePolygons (rings_of rings.now) polygons.now }
        requires later { later ≤ length polygons.now }
        ensures { IfOk result (IsSpread (rings_of rings.now) polygons.now later) }
    {
        let bounds = bounds_of(alloc, rings, polygons, later)?;
        let order = order_of(alloc, &bounds)?;
        let reaches = reaches_of(alloc, &bounds, &order)?;
        Ok(Spread {
            bounds,
            order,
            reaches,
        })
    }

    /// How many of them, in their order, there are before those that begin further to the right
    /// than this.
    pub(super) fn begun(&self, right: i32) -> usize
        requires { AreBoundsInOrder self.now.bounds.items self.now.order.items }
        ensures within { result ≤ length self.now.order.items }
        ensures following { (at : ℕ) (left : ℤ) (number : ℕ) → result ≤ at
            → slice_get self.now.order.items at ≡ Some (left, number) → right <ℤ left }
    {
        let mut from = 0;
        let mut to = self.order.len();
        'halves: while from < to {
            let middle = from + (to - from) / 2;
            if self.order[middle].0 <= right {
                from = middle + 1;
            } else {
                to = middle;
            }
        }
        to
    }
}

/// The bounds of the exterior of each polygon from `later` on.
fn bounds_of(
    alloc: Global,
    rings: &[Vec<Point>],
    polygons: &[(usize, usize)],
    later: usize,
) -> Result<Vec<Bounds>, AllocError>
    requires drawn { AreProperRings (rings_of rings.now) }
    requires listed { ArePolygons (rings_of rings.now) polygons.now }
    requires later { later ≤ length polygons.now }
    ensures { IfOk result (λ bounds.
        AreLaterBounds (rings_of rings.now) polygons.now later (length polygons.now) bounds.items) }
{
    let mut bounds = Vec::with_capacity(alloc, polygons.len() - later)?;
    for other in later..polygons.len() {
        let (exterior, _) = polygons[other];
        bounds.push(Bounds::of(&rings[exterior]))?;
    }
    Ok(bounds)
}

/// Their numbers in the order of their left sides.
fn order_of(alloc: Global, bounds: &[Bounds]) -> Result<Vec<(i32, usize)>, AllocError>
    ensures { IfOk result (λ order. AreBoundsInOrder bounds.now order.items) }
{
    let mut order = Vec::with_capacity(alloc, bounds.len())?;
    for number in 0..bounds.len() {
        order.push((bounds[number].left, number))?;
    }
    order.sort_unstable_by_key(|pair| pair.0);
    Ok(order)
}

/// The greatest right side of each, in this order, and those before it.
fn reaches_of(
    alloc: Global,
    bounds: &[Bounds],
    order: &[(i32, usize)],
) -> Result<Vec<i32>, AllocError>
    requires { AreBoundsInOrder bounds.now order.now }
    ensures { IfOk result (λ reaches.
        AreReaches bounds.now order.now (length order.now) reaches.items) }
{
    let mut reaches = Vec::with_capacity(alloc, order.len())?;
    let mut reach = i32::MIN;
    for at in 0..order.len() {
        let (_, number) = order[at];
        reach = reach.max(bounds[number].right);
        reaches.push(reach)?;
    }
    Ok(reaches)
}
