//! What polygons fill.

use crate::mending::arranged::{Arranged, Fill};
use crate::mending::drafts::Drafts;
use crate::mending::old::Old;
use crate::mending::segments::segments_of_polygon;
use mvt_fault::Profile;
use mvt_overlay::homes_of_strays;
use mvt_plane::Point;
use mvt_segments::{HalfEdge, Tally, Work, short};
use std::alloc::{AllocError, Global};

/// What each draft fills.
#[derive(Drop)]
struct Filling {
    /// Of each draft the edges around what it fills; none of one that is right.
    edges: Vec<Vec<HalfEdge>>,
    /// Whether what it fills has to be found again, since its rings changed.
    again: Vec<bool>,
    /// Holes that lie outside of their exterior altogether.
    strays: Vec<Vec<Point>>,
}

/// Of each draft the edges around what it fills, with the draft's number as their `source`; none of
/// one that is right. A hole that lies outside of its exterior altogether becomes a hole of the
/// least exterior around it, or else a draft of its own. But by the profile `polygon` no polygon
/// that is right gets a hole: such a hole goes. None where the work doesn't suffice.
pub(super) fn fill_all(
    alloc: Global,
    profile: Profile,
    drafts: &mut Drafts,
    old: Old,
    work: &mut Work,
    tally: &mut Tally,
) -> Result<Option<Vec<Vec<HalfEdge>>>, AllocError> {
    let mut filling = Filling {
        edges: Vec::new(alloc),
        again: Vec::new(alloc),
        strays: Vec::new(alloc),
    };
    for number in 0..drafts.polygons.len() {
        if !filling.fill(alloc, drafts, number, old, work, tally)? {
            return Ok(None);
        }
    }
    if filling.strays.is_empty() {
        return Ok(Some(filling.edges));
    }
    if !filling.place_strays(alloc, profile, drafts, work)? {
        return Ok(None);
    }
    filling.fill_again(alloc, drafts, old, work, tally)
}

impl Filling {
    /// Adds what the draft of this number fills, if all of its holes are where they should be. Else
    /// the strays among them are taken away from it. False where the work doesn't suffice.
    fn fill(
        &mut self,
        alloc: Global,
        drafts: &mut Drafts,
        number: usize,
        old: Old,
        work: &mut Work,
        tally: &mut Tally,
    ) -> Result<bool, AllocError> {
        if drafts.is_right(number) {
            return self.add_none(alloc);
        }
        let Some(polygon) = drafts.polygons.get_mut(number) else {
            return self.add_none(alloc);
        };
        let Some(arranged) = arrange(alloc, polygon, old, work, tally)? else {
            return Ok(false);
        };
        self.fill_arranged(alloc, polygon, arranged, number)?;
        Ok(true)
    }

    /// The same of one that isn't right, once its edges are split.
    fn fill_arranged(
        &mut self,
        alloc: Global,
        polygon: &mut Vec<Vec<Point>>,
        mut arranged: Arranged,
        number: usize,
    ) -> Result<(), AllocError> {
        let strays = arranged.strays(alloc, polygon.len())?;
        if strays.contains(&true) {
            take_marked(alloc, polygon, &strays, &mut self.strays)?;
            return self.add(Vec::new(alloc), true);
        }
        let edges = filled_by(alloc, &mut arranged, number)?;
        self.add(edges, false)
    }

    /// Adds no edges, of a draft that is right.
    fn add_none(&mut self, alloc: Global) -> Result<bool, AllocError> {
        self.add(Vec::new(alloc), false)?;
        Ok(true)
    }

    /// Adds the edges around what a draft fills, and whether it has to be filled again.
    fn add(&mut self, edges: Vec<HalfEdge>, again: bool) -> Result<(), AllocError> {
        self.edges.push(edges)?;
        self.again.push(again)?;
        Ok(())
    }

    /// Makes the strays holes of other drafts, or drafts of their own. False where the work doesn't
    /// suffice.
    fn place_strays(
        &mut self,
        alloc: Global,
        profile: Profile,
        drafts: &mut Drafts,
        work: &mut Work,
    ) -> Result<bool, AllocError> {
        let strays = std::mem::replace(&mut self.strays, Vec::new(alloc));
        let Some(homes) = homes_of_strays(alloc, &strays, &drafts.polygons, work)? else {
            return Ok(false);
        };
        for (stray, home) in strays.into_iter().zip(homes) {
            match home {
                Some(home) => self.add_hole(profile, drafts, home as usize, stray)?,
                None => self.add_draft(alloc, drafts, stray)?,
            }
        }
        Ok(true)
    }

    /// Makes a stray a hole of the draft of this number.
    fn add_hole(
        &mut self,
        profile: Profile,
        drafts: &mut Drafts,
        home: usize,
        stray: Vec<Point>,
    ) -> Result<(), AllocError> {
        if profile == Profile::Polygon && drafts.is_right(home) {
            return Ok(());
        }
        if let (Some(polygon), Some(right), Some(again)) = (
            drafts.polygons.get_mut(home),
            drafts.right.get_mut(home),
            self.again.get_mut(home),
        ) {
            polygon.push(stray)?;
            *right = false;
            *again = true;
        }
        Ok(())
    }

    /// Makes a stray a draft of its own.
    fn add_draft(
        &mut self,
        alloc: Global,
        drafts: &mut Drafts,
        stray: Vec<Point>,
    ) -> Result<(), AllocError> {
        drafts.add(alloc, vec![in alloc; stray]?)?;
        self.add(Vec::new(alloc), true)
    }

    /// What each draft fills, after those that changed are filled again. None where the work
    /// doesn't suffice.
    fn fill_again(
        mut self,
        alloc: Global,
        drafts: &mut Drafts,
        old: Old,
        work: &mut Work,
        tally: &mut Tally,
    ) -> Result<Option<Vec<Vec<HalfEdge>>>, AllocError> {
        for (number, again) in self.again.iter().enumerate() {
            if !*again {
                continue;
            }
            let Some(edges) = edges_again(alloc, drafts, number, old, work, tally)? else {
                return Ok(None);
            };
            if let Some(place) = self.edges.get_mut(number) {
                *place = edges;
            }
        }
        Ok(Some(self.edges))
    }
}

/// The edges around what a draft fills whose rings changed; none if it is right now.
fn edges_again(
    alloc: Global,
    drafts: &mut Drafts,
    number: usize,
    old: Old,
    work: &mut Work,
    tally: &mut Tally,
) -> Result<Option<Vec<HalfEdge>>, AllocError> {
    drafts.judge_again(alloc, number)?;
    if drafts.is_right(number) {
        return Ok(Some(Vec::new(alloc)));
    }
    let Some(polygon) = drafts.polygons.get(number) else {
        return Ok(Some(Vec::new(alloc)));
    };
    match arrange(alloc, polygon, old, work, tally)? {
        Some(mut arranged) => Ok(Some(filled_by(alloc, &mut arranged, number)?)),
        None => Ok(None),
    }
}

/// The edges of a polygon, split where they meet.
fn arrange(
    alloc: Global,
    polygon: &[Vec<Point>],
    old: Old,
    work: &mut Work,
    tally: &mut Tally,
) -> Result<Option<Arranged>, AllocError> {
    let segments = segments_of_polygon(alloc, polygon, old)?;
    Arranged::of(alloc, segments, work, tally)
}

/// The edges around what the draft of this number fills.
fn filled_by(
    alloc: Global,
    arranged: &mut Arranged,
    number: usize,
) -> Result<Vec<HalfEdge>, AllocError> {
    arranged.boundary(alloc, Fill::ExteriorLessHoles, Some(short(number)))
}

/// Moves the rings that are marked to the end of another list.
fn take_marked(
    alloc: Global,
    rings: &mut Vec<Vec<Point>>,
    marks: &[bool],
    taken: &mut Vec<Vec<Point>>,
) -> Result<(), AllocError> {
    let all = std::mem::replace(rings, Vec::new(alloc));
    for (ring, mark) in all.into_iter().zip(marks) {
        if *mark {
            taken.push(ring)?;
        } else {
            rings.push(ring)?;
        }
    }
    Ok(())
}
