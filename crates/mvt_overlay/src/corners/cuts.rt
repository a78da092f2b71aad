//! Corners that are cut: edges that are taken away, and those that are put in their place.
ghost use Rattle.std.specs.Prelude.{◌≤◌};

use crate::boundary::{Boundary, Renumbered, Touch, first_from, is_vertex, links_after, merged};
use crate::corners::wedge::{Wedge, position_at, step_between};
use crate::lists::mark;
use crate::sail::{Corner, Direction, det, sail};
use mvt_plane::{Point, side, sweep_key};
use mvt_segments::{HalfEdge, Work};
use std::alloc::{AllocError, Global};
use std::ops::Range;

/// The cuts of a round.
#[derive(Drop)]
pub(crate) struct Cuts {
    /// How many there are.
    pub(crate) count: u64,
    /// Of each edge whether it is taken away.
    removed: Vec<bool>,
    /// What is put in their place.
    added: Vec<HalfEdge>,
    /// Of each edge whether an edge where it begins was taken away or added.
    changed: Vec<bool>,
}

/// The cone of a wedge: the shortest steps along its edges, and how many of them each edge is.
#[derive(Clone, Copy)]
struct Cone {
    right: Direction,
    right_count: i64,
    left: Direction,
    left_count: i64,
}

impl Cone {
    /// That of a wedge.
    fn of(wedge: &Wedge) -> Option<Cone> {
        let (right, right_count) = step_between(wedge.tip, wedge.right.to).primitive()?;
        let (left, left_count) = step_between(wedge.tip, wedge.left.to).primitive()?;
        Some(Cone {
            right,
            right_count,
            left,
            left_count,
        })
    }

    /// Whether what is between two positions is nearer to the right side than to the left one.
    #[inline]
    fn is_nearer_right_of(&self, tip: Point, one: Point, other: Point) -> bool {
        self.is_nearer_right(step_between(tip, one), step_between(tip, other))
    }

    /// Whether what is between two steps from the tip is nearer to the right side than to the left
    /// one. (A position's distance from a line is its `det` with the line's direction, divided by
    /// the direction's length; it is at most 2^63, and the length at most 2^32.)
    fn is_nearer_right(&self, one: Direction, other: Direction) -> bool {
        let from_right = det(self.right, one).max(det(self.right, other));
        let from_left = det(one, self.left).max(det(other, self.left));
        from_right.wrapping_mul(self.left.length()) <= from_left.wrapping_mul(self.right.length())
    }
}

impl Cuts {
    ghost use Rattle.std.specs.Prelude.{◌≤◌};

    /// No cuts of so many edges.
    pub(crate) fn new(alloc: Global, count: usize) -> Result<Cuts, AllocError> {
        Ok(Cuts {
            count: 0,
            removed: vec![in alloc; false; count]?,
            added: Vec::new(alloc),
            changed: vec![in alloc; false; count]?,
        })
    }

    /// Whether an edge at a touch was taken away or added.
    pub(crate) fn have_changed(&self, touch: &Touch) -> bool {
        self.changed.get(touch.edge as usize) == Some(&true)
    }

    /// The boundary after these cuts of another one. None where that is no boundary. The only error is
    /// that memory was refused.
    pub(crate) fn applied(
        self,
        alloc: Global,
        boundary: Boundary,
    ) -> Result<Option<Boundary>, AllocError> {
        let Cuts {
            removed,
            added,
            changed,
            ..
        } = self;
        let mut stale = changed;
        for spoke in &boundary.links.spokes {
            if spoke.leaves {
                mark(&mut stale, spoke.edge as usize);
            }
        }
        let Boundary { edges, links } = boundary;
        let Renumbered { edges, numbers } = merged(alloc, edges, removed, added)?;
        match links_after(alloc, &edges, links, &numbers, &stale)? {
            Some(links) => Ok(Some(Boundary { edges, links })),
            None => Ok(None),
        }
    }

    /// Cuts a wedge, if it is less than half a turn: its tip gives way to the sail of its cone.
    /// Returns whether the work sufficed. The only error is that memory was refused.
    pub(crate) fn cut(
        &mut self,
        alloc: Global,
        edges: &[HalfEdge],
        wedge: &Wedge,
        work: &mut Work,
    ) -> Result<bool, AllocError>
        ensures no_more { work.new ≤ work.old }
    {
        let Some(cone) = Cone::of(wedge) else {
            return Ok(true);
        };
        let Some(corners) = sail(alloc, cone.right, cone.left)? else {
            return Ok(true);
        };
        if !work.spend(corners.len() as u64) {
            return Ok(false);
        }
        let Some(line) = line_along(alloc, edges, wedge, &cone, &corners, work)? else {
            return Ok(false);
        };
        self.remove(edges, wedge);
        for at in 0..line.len() {
            self.mark_changed(edges, line[at]);
        }
        self.add(edges, wedge, &cone, &line)?;
        self.count = self.count.wrapping_add(1);
        Ok(true)
    }

    /// Takes away both edges of a wedge.
    fn remove(&mut self, edges: &[HalfEdge], wedge: &Wedge) {
        mark(&mut self.removed, wedge.right.edge as usize);
        mark(&mut self.removed, wedge.left.edge as usize);
        self.mark_changed(edges, wedge.tip);
        self.mark_changed(edges, wedge.right.to);
        self.mark_changed(edges, wedge.left.to);
    }

    /// Notes that an edge at a position was taken away or added.
    fn mark_changed(&mut self, edges: &[HalfEdge], position: Point) {
        let first = first_from(edges, sweep_key(position));
        let Some(begin) = edges.get(first) else {
            return;
        };
        for number in first..edges.len() {
            if edges[number].from != begin.from {
                return;
            }
            mark(&mut self.changed, number);
        }
    }

    /// Puts edges along a line in the place of those of a wedge.
    fn add(
        &mut self,
        edges: &[HalfEdge],
        wedge: &Wedge,
        cone: &Cone,
        line: &[Point],
    ) -> Result<(), AllocError> {
        let (Some(right), Some(left)) = (
            edges.get(wedge.right.edge as usize),
            edges.get(wedge.left.edge as usize),
        ) else {
            return Ok(());
        };
        let source = right.source.max(left.source);
        for at in 1..line.len() {
            let (one, other) = (line[at - 1], line[at]);
            let (from, to) = if wedge.is_filled() {
                (other, one)
            } else {
                (one, other)
            };
            let beside = if cone.is_nearer_right_of(wedge.tip, one, other) {
                right
            } else {
                left
            };
            self.added.push(HalfEdge {
                from,
                to,
                source,
                witness: beside.witness,
                part: right.part,
            })?;
        }
        Ok(())
    }
}

/// The positions from the far end of a wedge's right edge along the sail to that of its left edge:
/// both ends, the corners, and the vertices of the boundary on the sail. None where the work doesn't
/// suffice, or where a position is out of range.
fn line_along(
    alloc: Global,
    edges: &[HalfEdge],
    wedge: &Wedge,
    cone: &Cone,
    corners: &[Corner],
    work: &mut Work,
) -> Result<Option<Vec<Point>>, AllocError>
    ensures no_more { work.new ≤ work.old }
{
    let mut line = Vec::with_capacity(alloc, corners.len().saturating_add(2))?;
    if cone.right_count != 1 {
        line.push(wedge.right.to)?;
    }
    for corner in corners {
        let Some(to) = position_at(wedge.tip, corner.at) else {
            return Ok(None);
        };
        if corner.steps > 1 {
            if let Some(from) = line.last().copied() {
                if !add_vertices_between(edges, from, to, corner.steps, &mut line, work)? {
                    return Ok(None);
                }
            }
        }
        line.push(to)?;
    }
    if cone.left_count != 1 {
        line.push(wedge.left.to)?;
    }
    Ok(Some(line))
}

/// Adds the vertices of the boundary that are between two positions, which are so many steps of the
/// grid from each other. Returns whether the work sufficed.
fn add_vertices_between(
    edges: &[HalfEdge],
    from: Point,
    to: Point,
    steps: i64,
    line: &mut Vec<Point>,
    work: &mut Work,
) -> Result<bool, AllocError>
    ensures no_more { work.new ≤ work.old }
{
    let least = sweep_key(from).min(sweep_key(to));
    let greatest = sweep_key(from).max(sweep_key(to));
    let first = first_from(edges, least.wrapping_add(1));
    let after = first_from(edges, greatest);
    let candidates = after.saturating_sub(first) as u64;
    let steps = u64::try_from(steps).unwrap_or(u64::MAX);
    if !work.spend(candidates.min(steps)) {
        return Ok(false);
    }
    if steps < candidates {
        add_by_steps(edges, from, to, steps, line)?;
    } else {
        add_by_vertices(edges, first..after, from, to, line)?;
    }
    Ok(true)
}

/// The same, by a look at each position between them.
fn add_by_steps(
    edges: &[HalfEdge],
    from: Point,
    to: Point,
    steps: u64,
    line: &mut Vec<Point>,
) -> Result<(), AllocError> {
    let Some((step, _)) = step_between(from, to).primitive() else {
        return Ok(());
    };
    let mut position = from;
    for _ in 1..steps {
        let Some(next) = position_at(position, step) else {
            return Ok(());
        };
        position = next;
        if is_vertex(edges, position) {
            line.push(position)?;
        }
    }
    Ok(())
}

/// The same, by a look at each vertex whose key is between theirs: the first ends of these edges.
fn add_by_vertices(
    edges: &[HalfEdge],
    numbers: Range<usize>,
    from: Point,
    to: Point,
    line: &mut Vec<Point>,
) -> Result<(), AllocError> {
    let begin = line.len();
    add_on_line(edges.get(numbers).unwrap_or_default(), from, to, line)?;
    if sweep_key(to) < sweep_key(from) {
        if let Some(found) = line.as_mut_slice().get_mut(begin..) {
            found.reverse();
        }
    }
    Ok(())
}

/// Adds the first ends of edges, which are in their order, that are on the line between two positions.
fn add_on_line(
    edges: &[HalfEdge],
    from: Point,
    to: Point,
    line: &mut Vec<Point>,
) -> Result<(), AllocError> {
    let mut last = from;
    for edge in edges {
        if edge.from != last && side(from, to, edge.from).is_eq() {
            line.push(edge.from)?;
        }
        last = edge.from;
    }
    Ok(())
}
