//! Some polygons of a feature as a feature of their own.
ghost use Rattle.std.specs.Prelude.{◌≡◌, ◌<◌, ◌≤◌, ◌-◌, ◌++◌, length, option_map, slice_index, slice_range, IfOk, IfSome};
ghost use Rattle.std.specs.List.{range_with_len};
ghost use Rattle.mvt_feature.specs.Calls.Gathered.{cause_moved, fault_moved, gathered_numbers, gathered_places, gathered_rings, IsCauseWithin, IsFaultWithin};
ghost use Rattle.mvt_polygon.specs.InFeature.{AreNestRings, nest_moved};
ghost use Rattle.mvt_polygon.specs.Polygons.{ArePolygons};
ghost use Rattle.mvt_sweep.specs.Rings.{rings_of};

use super::{FeatureCause, FeatureFault};
use mvt_plane::Point;
use mvt_polygon::{ApartFault, NestFault};
use mvt_sweep::Meeting;
use std::alloc::{AllocError, Global};

/// The polygons that were chosen, in their order.
#[derive(Drop)]
pub(super) struct Gathered {
    /// Their rings.
    pub(super) rings: Vec<Vec<Point>>,
    /// Of each ring, which one of the feature it is.
    ring_of: Vec<usize>,
    /// Of each polygon, which one of the feature it is.
    polygon_of: Vec<usize>,
}

/// Gathers the polygons that are marked.
pub(super) fn gather(
    alloc: Global,
    rings: &[Vec<Point>],
    polygons: &[(usize, usize)],
    marks: &[bool],
) -> Result<Gathered, AllocError>
    requires listed { ArePolygons (rings_of rings.now) polygons.now }
    requires marked { length marks.now ≡ length polygons.now }
    ensures rings { IfOk result (λ it. rings_of it.rings.items
        ≡ gathered_rings (rings_of rings.now) polygons.now marks.now (length polygons.now)) }
    ensures places { IfOk result (λ it. it.ring_of.items
        ≡ gathered_places polygons.now marks.now (length polygons.now)) }
    ensures numbers { IfOk result (λ it. it.polygon_of.items
        ≡ gathered_numbers marks.now (length polygons.now)) }
{
    let mut gathered = Gathered {
        rings: Vec::new(alloc),
        ring_of: Vec::new(alloc),
        polygon_of: Vec::new(alloc),
    };
    for polygon in 0..polygons.len() {
        if marks[polygon] {
            let (exterior, after) = polygons[polygon];
            gathered.polygon_of.push(polygon)?;
            gathered.add_rings(alloc, rings, exterior, after)?;
        }
    }
    Ok(gathered)
}

impl Gathered {
    /// Adds the rings from one number up to another.
    fn add_rings(
        &mut self,
        alloc: Global,
        rings: &[Vec<Point>],
        from: usize,
        to: usize,
    ) -> Result<(), AllocError>
        requires in_order { from ≤ to }
        requires within { to ≤ length rings.now }
        ensures rings { IfOk result (λ _. rings_of self.new.rings.items
            ≡ rings_of self.old.rings.items ++ slice_range (rings_of rings.now) from to) }
        ensures places { IfOk result (λ _. self.new.ring_of.items
            ≡ self.old.ring_of.items ++ range_with_len from (to - from)) }
        ensures numbers { IfOk result (λ _. self.new.polygon_of.items ≡ self.old.polygon_of.items) }
    {
        for ring in from..to {
            let mut vertices = Vec::new(alloc);
            vertices.extend_from_slice(&rings[ring])?;
            self.rings.push(vertices)?;
            self.ring_of.push(ring)?;
        }
        Ok(())
    }

    /// A fault of the gathered polygons, with the numbers that they have in the feature.
    pub(super) fn in_feature(
        &self,
        polygons: &[(usize, usize)],
        found: Option<FeatureFault>,
    ) -> Option<FeatureFault>
        requires { IfSome found (IsFaultWithin polygons.now self.now.ring_of.items
            self.now.polygon_of.items) }
        ensures { result ≡ option_map (fault_moved polygons.now self.now.ring_of.items
            self.now.polygon_of.items) found }
    {
        let found = found?;
        let polygon = self.polygon_of[found.polygon];
        let (exterior, after) = polygons[polygon];
        Some(FeatureFault {
            polygon,
            exterior,
            after,
            cause: self.cause_in_feature(found.cause),
        })
    }

    /// What is wrong, with the numbers that the rings and the polygons have in the feature.
    fn cause_in_feature(&self, cause: FeatureCause) -> FeatureCause
        requires { IsCauseWithin self.now.ring_of.items self.now.polygon_of.items cause }
        ensures { result ≡ cause_moved self.now.ring_of.items self.now.polygon_of.items cause }
    {
        match cause {
            FeatureCause::Meeting(meeting) => FeatureCause::Meeting(Meeting {
                first_ring: self.ring_of[meeting.first_ring],
                second_ring: self.ring_of[meeting.second_ring],
                ..meeting
            }),
            FeatureCause::Nesting(fault) => FeatureCause::Nesting(self.hole_in_feature(fault)),
            FeatureCause::Apart(fault) => FeatureCause::Apart(ApartFault {
                other: self.polygon_of[fault.other],
                ..fault
            }),
        }
    }

    /// The fault of a hole, with the numbers that the rings have in the feature.
    fn hole_in_feature(&self, fault: NestFault) -> NestFault
        requires { AreNestRings (λ ring. ring < length self.now.ring_of.items) fault }
        ensures { result ≡ nest_moved (slice_index self.now.ring_of.items) fault }
    {
        match fault {
            NestFault::Outside { ring, vertex } => NestFault::Outside {
                ring: self.ring_of[ring],
                vertex,
            },
            NestFault::InHole {
                ring,
                vertex,
                other,
            } => NestFault::InHole {
                ring: self.ring_of[ring],
                vertex,
                other: self.ring_of[other],
            },
        }
    }
}
