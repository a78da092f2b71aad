//! Cuts corners where rings touch.
ghost use Rattle.std.specs.Prelude.{◌≤◌};

mod classes;
mod cuts;
mod star;
mod wedge;

use crate::boundary::{Boundary, Links, Touch, Traced, add_outlines, trace};
use crate::corners::classes::classes_of;
use crate::corners::cuts::Cuts;
use crate::corners::star::Star;
use crate::outlines::Outlines;
use mvt_segments::{HalfEdge, Tally, Work};
use std::alloc::{AllocError, Global};

/// After so many rounds only filled wedges are cut, so that what is filled has fewer positions of
/// the grid after each cut.
const MIXED_ROUNDS: u32 = 8;

/// No more rounds than this are tried.
const GREATEST_ROUNDS: u32 = 1000;

/// Which rings may not touch.
#[derive(Clone, Copy, Debug, PartialEq, Eq)]
pub enum Apart {
    /// Those of one polygon.
    RingsOfOne,
    /// Those of any polygons.
    AllRings,
}

/// So much work is a round for each edge: two sorts, and a sweep where there are holes.
const WORK_OF_A_ROUND: u64 = 16;

/// What a round comes to.
#[derive(Drop)]
enum Round {
    /// No rings touch any more that may not, and they are outlines now.
    Apart,
    /// Corners were cut, and this is left.
    Cut(Boundary),
    /// The work doesn't suffice, or the edges are no boundary.
    GaveUp,
}

/// Adds the rings of the polygons whose boundary the edges are, with what is filled on their left,
/// after corners were cut where rings of one polygon touch, or those of any, as `apart` says. The
/// edges meet in ends only, and are in their order. Returns whether the work sufficed. The only error
/// is that memory was refused.
pub fn add_polygons_apart(
    alloc: Global,
    apart: Apart,
    edges: Vec<HalfEdge>,
    work: &mut Work,
    tally: &mut Tally,
    outlines: &mut Outlines,
) -> Result<bool, AllocError>
    ensures no_more { work.new ≤ work.old }
{
    add_after_rounds(alloc, apart, MIXED_ROUNDS, edges, work, tally, outlines)
}

/// The same, where from the first round on only filled wedges are cut.
pub fn add_polygons_shrunk(
    alloc: Global,
    apart: Apart,
    edges: Vec<HalfEdge>,
    work: &mut Work,
    tally: &mut Tally,
    outlines: &mut Outlines,
) -> Result<bool, AllocError>
    ensures no_more { work.new ≤ work.old }
{
    add_after_rounds(alloc, apart, 0, edges, work, tally, outlines)
}

/// The same, where from the round of this number on only filled wedges are cut.
fn add_after_rounds(
    alloc: Global,
    apart: Apart,
    mixed_rounds: u32,
    edges: Vec<HalfEdge>,
    work: &mut Work,
    tally: &mut Tally,
    outlines: &mut Outlines,
) -> Result<bool, AllocError>
    ensures no_more { work.new ≤ work.old }
{
    let Some(mut boundary) = Boundary::of(alloc, edges)? else {
        return Ok(false);
    };
    for round in 0..GREATEST_ROUNDS {
        let shrinking = round >= mixed_rounds;
        match cut_round(alloc, apart, shrinking, boundary, work, tally, outlines)? {
            Round::Apart => return Ok(true),
            Round::Cut(left) => boundary = left,
            Round::GaveUp => return Ok(false),
        }
    }
    Ok(false)
}

/// Adds the rings of a boundary where none touch that may not, and else cuts corners.
fn cut_round(
    alloc: Global,
    apart: Apart,
    shrinking: bool,
    boundary: Boundary,
    work: &mut Work,
    tally: &mut Tally,
    outlines: &mut Outlines,
) -> Result<Round, AllocError>
    ensures no_more { work.new ≤ work.old }
{
    if !work.spend((boundary.edges.len() as u64).saturating_mul(WORK_OF_A_ROUND)) {
        return Ok(Round::GaveUp);
    }
    let Some(traced) = trace(alloc, &boundary.edges, &boundary.links, work)? else {
        return Ok(Round::GaveUp);
    };
    let Some(cuts) = cuts_of(alloc, apart, shrinking, &boundary, &traced, work)? else {
        return Ok(Round::GaveUp);
    };
    if cuts.count > 0 {
        tally.cuts = tally.cuts.wrapping_add(cuts.count);
        drop(traced);
        return match cuts.applied(alloc, boundary)? {
            Some(left) => Ok(Round::Cut(left)),
            None => Ok(Round::GaveUp),
        };
    }
    if apart == Apart::AllRings && !boundary.links.touches.is_empty() {
        return Ok(Round::GaveUp);
    }
    add_outlines(alloc, &traced, outlines)?;
    Ok(Round::Apart)
}

/// The cuts of a round. None where the work doesn't suffice.
fn cuts_of(
    alloc: Global,
    apart: Apart,
    shrinking: bool,
    boundary: &Boundary,
    traced: &Traced,
    work: &mut Work,
) -> Result<Option<Cuts>, AllocError>
    ensures no_more { work.new ≤ work.old }
{
    let (edges, links) = (boundary.edges.as_slice(), &boundary.links);
    let mut cuts = Cuts::new(alloc, 0)?;
    if links.touches.is_empty() {
        return Ok(Some(cuts));
    }
    cuts = Cuts::new(alloc, edges.len())?;
    let Some(classes) = classes_of(alloc, apart, edges, traced)? else {
        return Ok(None);
    };
    for touch in &links.touches {
        if cuts.have_changed(touch) {
            continue;
        }
        let Some(star) = star_at(alloc, links, traced, &classes, touch)? else {
            return Ok(None);
        };
        if !work.spend(star.spokes.len() as u64) {
            return Ok(None);
        }
        let wedges = star.wedges_to_cut(alloc, apart, shrinking, edges)?;
        for wedge in &wedges {
            if !cuts.cut(alloc, edges, wedge, work)? {
                return Ok(None);
            }
        }
    }
    Ok(Some(cuts))
}

/// The edges round a touch, with the classes of the filled wedges.
fn star_at<'a>(
    alloc: Global,
    links: &'a Links,
    traced: &Traced,
    classes: &[u32],
    touch: &Touch,
) -> Result<Option<Star<'a>>, AllocError> {
    let Some(spokes) = links.spokes.get(touch.first..touch.after) else {
        return Ok(None);
    };
    let mut found = Vec::new(alloc);
    for spoke in spokes {
        if spoke.leaves {
            let Some(class) = class_of(traced, classes, spoke.edge) else {
                return Ok(None);
            };
            found.push(class)?;
        }
    }
    Ok(Some(Star {
        tip: touch.position,
        spokes,
        classes: found,
    }))
}

/// The class of the ring of an edge.
fn class_of(traced: &Traced, classes: &[u32], edge: u32) -> Option<u32> {
    let ring = *traced.ring_of.get(edge as usize)?;
    classes.get(ring as usize).copied()
}
