//! Which rings may be joined where they touch.

use crate::boundary::Traced;
use crate::corners::Apart;
use crate::groups::Groups;
use mvt_segments::HalfEdge;
use std::alloc::{AllocError, Global};

/// Of each ring the class of its part: by `polygon` each part is one, by `feature` parts with edges
/// of one source are one. None where the numbers of rings aren't those of a boundary. The only error
/// is that memory was refused.
pub(crate) fn classes_of(
    alloc: Global,
    apart: Apart,
    edges: &[HalfEdge],
    traced: &Traced,
) -> Result<Option<Vec<u32>>, AllocError> {
    let exteriors = Vec::from_slice(alloc, &traced.exteriors)?;
    if apart != Apart::AllRings {
        return Ok(Some(exteriors));
    }
    let mut groups = Groups::new(alloc, exteriors.len())?;
    let sources = sources_of(alloc, edges, traced)?;
    if !join_those_of_one(&mut groups, &sources) {
        return Ok(None);
    }
    let mut classes = Vec::with_capacity(alloc, exteriors.len())?;
    for part in exteriors {
        let Some(class) = groups.least(part) else {
            return Ok(None);
        };
        classes.push(class)?;
    }
    Ok(Some(classes))
}

/// Joins parts that have edges of one source, given in the order of sources. Returns whether all are
/// there.
fn join_those_of_one(groups: &mut Groups, sources: &[(u32, u32)]) -> bool {
    for at in 1..sources.len() {
        let (source, part) = sources[at];
        let (before, other) = sources[at - 1];
        if source == before && groups.join(part, other).is_none() {
            return false;
        }
    }
    true
}

/// The sources of edges, each with the parts that have an edge of it, in the order of the sources.
fn sources_of(
    alloc: Global,
    edges: &[HalfEdge],
    traced: &Traced,
) -> Result<Vec<(u32, u32)>, AllocError> {
    let mut last = vec![in alloc; None; traced.exteriors.len()]?;
    let mut sources = Vec::new(alloc);
    for number in 0..edges.len() {
        let source = edges[number].source;
        let Some(part) = part_of(traced, number) else {
            continue;
        };
        if is_new_source(&mut last, part, source) {
            sources.push((source, part))?;
        }
    }
    sources.sort_unstable();
    Ok(sources)
}

/// Notes the source of an edge of a part, and returns whether it is another one than was noted last.
fn is_new_source(last: &mut [Option<u32>], part: u32, source: u32) -> bool {
    match last.get_mut(part as usize) {
        Some(known) if *known != Some(source) => {
            *known = Some(source);
            true
        }
        _ => false,
    }
}

/// The part of an edge: the number of the exterior of its ring.
fn part_of(traced: &Traced, edge: usize) -> Option<u32> {
    let ring = *traced.ring_of.get(edge)?;
    traced.exteriors.get(ring as usize).copied()
}
