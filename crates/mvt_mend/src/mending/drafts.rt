//! The polygons that rings are meant to be.

use crate::kept::{Judged, are_right, are_same};
use mvt_plane::{Point, twice_area};
use std::alloc::{AllocError, Global};

/// The polygons that rings are meant to be.
#[derive(Drop)]
pub(super) struct Drafts {
    /// Of each its rings, the exterior first.
    pub(super) polygons: Vec<Vec<Vec<Point>>>,
    /// Whether it keeps all rules by itself.
    pub(super) right: Vec<bool>,
}

impl Drafts {
    /// These polygons, with their rings turned so that exteriors have a positive area and holes a
    /// negative one. `judged` is what was found of the polygons of the old rings: one that stands
    /// there too isn't checked again.
    pub(super) fn of(
        alloc: Global,
        old: &[Vec<Point>],
        judged: &Judged,
        meant: Vec<Vec<Vec<Point>>>,
    ) -> Result<Drafts, AllocError> {
        let mut drafts = Drafts {
            polygons: Vec::new(alloc),
            right: Vec::new(alloc),
        };
        for (number, polygon) in meant.into_iter().enumerate() {
            if let Some(right) = mark_of(old, judged, number, &polygon) {
                drafts.polygons.push(polygon)?;
                drafts.right.push(right)?;
            } else {
                drafts.add(alloc, polygon)?;
            }
        }
        Ok(drafts)
    }

    /// Adds a polygon, after its rings were turned.
    pub(super) fn add(
        &mut self,
        alloc: Global,
        mut polygon: Vec<Vec<Point>>,
    ) -> Result<(), AllocError> {
        turn(&mut polygon);
        let is_right = are_right(alloc, &polygon)?;
        self.polygons.push(polygon)?;
        self.right.push(is_right)?;
        Ok(())
    }

    /// Finds out whether a polygon is right now, after its rings changed.
    pub(super) fn judge_again(&mut self, alloc: Global, number: usize) -> Result<(), AllocError> {
        if let (Some(polygon), Some(right)) = (
            self.polygons.get(number),
            self.right.get_mut(number),
        ) {
            *right = are_right(alloc, polygon)?;
        }
        Ok(())
    }

    /// Whether the polygon of this number keeps all rules by itself.
    pub(super) fn is_right(&self, number: usize) -> bool {
        self.right.get(number).copied().unwrap_or(false)
    }
}

/// Whether the polygon of this number among the old rings is right, if it has these rings. (Their
/// areas have the signs that they should have.)
fn mark_of(
    old: &[Vec<Point>],
    judged: &Judged,
    number: usize,
    polygon: &[Vec<Point>],
) -> Option<bool> {
    let right = *judged.right.get(number)?;
    let (exterior, after) = *judged.polygons.get(number)?;
    if exterior <= after && after <= old.len() && are_same(&old[exterior..after], polygon) {
        Some(right)
    } else {
        None
    }
}

/// Turns the exterior so that its area isn't negative, and the holes so that theirs isn't positive.
fn turn(polygon: &mut [Vec<Point>]) {
    for (number, ring) in polygon.iter_mut().enumerate() {
        let area = twice_area(ring);
        if (number == 0 && area < 0) || (number > 0 && area > 0) {
            if let Some((_first, rest)) = ring.split_first_mut() {
                rest.reverse();
            }
        }
    }
}
