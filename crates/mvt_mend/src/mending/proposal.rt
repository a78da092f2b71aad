//! Rings that may stand for those of a feature.

use crate::kept::{Judged, are_feature_right};
use crate::mending::MendedRings;
use crate::mending::arranged::{Arranged, Fill};
use crate::mending::drafts::Drafts;
use crate::mending::filled::fill_all;
use crate::mending::old::Old;
use crate::mending::segments::{segments_of_drafts, segments_of_right};
use crate::mending::starts::restore_starts;
use mvt_fault::Profile;
use mvt_overlay::{Apart, Outlines, add_polygons_apart, polygons_meant};
use mvt_plane::Point;
use mvt_segments::{HalfEdge, Segment, Tally, Work};
use std::alloc::{AllocError, Global};

/// Rings that may stand for those of a feature.
#[derive(Drop)]
pub(super) struct Proposal {
    /// The rings, with the old edges that their edges come of.
    pub(super) outlines: Outlines,
    /// What was done.
    tally: Tally,
}

/// Rings that may stand for the old ones, by the profile. None where the work doesn't suffice. The
/// only error is that memory was refused.
pub(super) fn propose(
    alloc: Global,
    profile: Profile,
    old: Old,
    judged: &Judged,
    work: &mut Work,
) -> Result<Option<Proposal>, AllocError> {
    let Some(meant) = polygons_meant(alloc, old.rings, work)? else {
        return Ok(None);
    };
    let mut drafts = Drafts::of(alloc, old.rings, judged, meant)?;
    let mut proposal = Proposal {
        outlines: Outlines {
            rings: Vec::new(alloc),
            witnesses: Vec::new(alloc),
        },
        tally: Tally {
            crossings: 0,
            cuts: 0,
        },
    };
    let tally = &mut proposal.tally;
    let Some(filled) = fill_all(alloc, profile, &mut drafts, old, work, tally)? else {
        return Ok(None);
    };
    let is_done = match profile {
        Profile::Polygon => proposal.add_each(alloc, profile, drafts, filled, old, work)?,
        Profile::Feature => proposal.add_all(alloc, drafts, filled, old, work)?,
    };
    if is_done {
        Ok(Some(proposal))
    } else {
        Ok(None)
    }
}

impl Proposal {
    ghost use Rattle.std.specs.Prelude.{◌≡◌};

    /// What the caller of the crate gets.
    pub(super) fn mended(self) -> MendedRings
        ensures { result.rings ≡ self.outlines.rings }
    {
        let Proposal { outlines, tally } = self;
        let Outlines { rings, .. } = outlines;
        MendedRings {
            rings,
            crossings: tally.crossings,
            cuts: tally.cuts,
        }
    }

    /// Adds the drafts one after another: one that is right as it is, and else polygons whose rings
    /// don't touch. False where the work doesn't suffice.
    fn add_each(
        &mut self,
        alloc: Global,
        profile: Profile,
        drafts: Drafts,
        filled: Vec<Vec<HalfEdge>>,
        old: Old,
        work: &mut Work,
    ) -> Result<bool, AllocError> {
        let Drafts { polygons, right } = drafts;
        for ((polygon, right), edges) in polygons.into_iter().zip(right).zip(filled) {
            let known = if right {
                Some(polygon)
            } else {
                // (it isn't needed any more, and may be large)
                drop(polygon);
                None
            };
            if !self.add_one(alloc, profile, known, edges, old, work)? {
                return Ok(false);
            }
        }
        Ok(true)
    }

    /// Adds a draft: the one that is right, if it is given, or else polygons around what is filled on the
    /// left of its edges.
    fn add_one(
        &mut self,
        alloc: Global,
        profile: Profile,
        right: Option<Vec<Vec<Point>>>,
        edges: Vec<HalfEdge>,
        old: Old,
        work: &mut Work,
    ) -> Result<bool, AllocError> {
        match right {
            Some(polygon) => {
                self.add_right(polygon, old)?;
                Ok(true)
            }
            None => self.add_filled(alloc, profile, edges, old, work),
        }
    }

    /// Adds rings as they are.
    fn add_right(&mut self, mut rings: Vec<Vec<Point>>, old: Old) -> Result<(), AllocError> {
        for ring in &rings {
            old.edges
                .add_numbers(old.rings, ring, &mut self.outlines.witnesses)?;
        }
        self.outlines.rings.append(&mut rings)
    }

    /// Adds polygons around what is filled on the left of edges, whose rings don't touch. False
    /// where the work doesn't suffice.
    fn add_filled(
        &mut self,
        alloc: Global,
        profile: Profile,
        edges: Vec<HalfEdge>,
        old: Old,
        work: &mut Work,
    ) -> Result<bool, AllocError> {
        let outlines = &mut self.outlines;
        let (rings, vertices) = (outlines.rings.len(), outlines.witnesses.len());
        let apart = rings_apart(profile);
        if !add_polygons_apart(alloc, apart, edges, work, &mut self.tally, outlines)? {
            return Ok(false);
        }
        restore_starts(&mut self.outlines, old, rings, vertices);
        Ok(true)
    }

    /// Adds all drafts so that no rings of any of them touch. False where the work doesn't suffice.
    fn add_all(
        &mut self,
        alloc: Global,
        drafts: Drafts,
        filled: Vec<Vec<HalfEdge>>,
        old: Old,
        work: &mut Work,
    ) -> Result<bool, AllocError> {
        if drafts.polygons.len() <= 1 {
            return self.add_each(alloc, Profile::Feature, drafts, filled, old, work);
        }
        let all_right = !drafts.right.contains(&false);
        if all_right {
            let rings = joined(alloc, drafts.polygons)?;
            if are_feature_right(alloc, &rings)? {
                self.add_right(rings, old)?;
                return Ok(true);
            }
            let segments = segments_of_right(alloc, &rings, old)?;
            drop(rings);
            return self.add_together(alloc, segments, old, work);
        }
        let segments = segments_of_drafts(alloc, &drafts, &filled, old)?;
        drop(drafts);
        drop(filled);
        self.add_together(alloc, segments, old, work)
    }

    /// Adds polygons around what all of these segments fill together, none of whose rings touch.
    fn add_together(
        &mut self,
        alloc: Global,
        segments: Vec<Segment>,
        old: Old,
        work: &mut Work,
    ) -> Result<bool, AllocError> {
        let Some(mut arranged) = Arranged::of(alloc, segments, work, &mut self.tally)? else {
            return Ok(false);
        };
        let edges = arranged.boundary(alloc, Fill::Polygons, None)?;
        drop(arranged);
        self.add_filled(alloc, Profile::Feature, edges, old, work)
    }
}

/// Which rings may not touch by a profile.
fn rings_apart(profile: Profile) -> Apart {
    match profile {
        Profile::Polygon => Apart::RingsOfOne,
        Profile::Feature => Apart::AllRings,
    }
}

/// The rings of all polygons, one after another.
fn joined(alloc: Global, polygons: Vec<Vec<Vec<Point>>>) -> Result<Vec<Vec<Point>>, AllocError> {
    let mut rings = Vec::new(alloc);
    for mut polygon in polygons {
        rings.append(&mut polygon)?;
    }
    Ok(rings)
}
