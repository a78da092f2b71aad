//! Whether the polygons that keep all rules are still there.
ghost use Rattle.std.specs.Prelude.{◌≡◌, ◌<◌, ◌≤◌, ◌⊎◌, ◌↔◌, pos, ◌<ℤ◌, IfOk, IfSome, IsTrue, length, slice_range};
ghost use Rattle.mvt_mend.specs.Calls.Judged.{AreJudged, IsFoundFrom};
ghost use Rattle.mvt_mend.specs.Kept.{AreKept, BeginWithExterior};
ghost use Rattle.mvt_rules.specs.Polygon.{IsExterior, NoExterior};
ghost use Rattle.mvt_plane.specs.Geometry.Ring.{doubled_area};
ghost use Rattle.mvt_polygon.specs.Polygons.{ArePolygons};
ghost use Rattle.mvt_sweep.specs.Rings.{rings_of};

mod known;
mod right;

use mvt_plane::{Point, twice_area};
use mvt_polygon::polygon_end;
use mvt_sweep::Meeting;
use right::marks_of;
pub(crate) use right::{are_feature_right, are_right};
use std::alloc::{AllocError, Global};

/// The polygons of a list of rings, and which of them keep all rules by themselves.
#[derive(Drop)]
pub(crate) struct Judged {
    /// Of each polygon its exterior, and the ring after its last one.
    pub(crate) polygons: Vec<(usize, usize)>,
    /// Whether it keeps all rules.
    pub(crate) right: Vec<bool>,
}

impl Judged {
    /// Whether the first ring is an exterior.
    pub(crate) fn begin_at_once(&self) -> bool {
        match self.polygons.first() {
            Some((exterior, _)) => *exterior == 0,
            None => false,
        }
    }
}

/// Judges the polygons of the rings one by one. `known` are edges that may meet wrongly, if such are
/// known: where they do, no others are looked for in their polygon. The only error is that memory was
/// refused.
pub(crate) fn judge(
    alloc: Global,
    rings: &[Vec<Point>],
    known: Option<&Meeting>,
) -> Result<Judged, AllocError>
    ensures { IfOk result (λ it. AreJudged (rings_of rings.now) it.polygons.items it.right.items) }
{
    let polygons = polygons_of(alloc, rings)?;
    let right = marks_of(alloc, rings, &polygons, known)?;
    Ok(Judged { polygons, right })
}

/// The polygons of any rings: each begins with a ring of positive area, and has the rings up to the
/// next one.
fn polygons_of(alloc: Global, rings: &[Vec<Point>]) -> Result<Vec<(usize, usize)>, AllocError>
    ensures { IfOk result (λ polygons. ArePolygons (rings_of rings.now) polygons.items) }
{
    let mut polygons = Vec::new(alloc);
    let mut exterior = first_exterior(rings);
    'polygons: while exterior < rings.len() {
        let after = polygon_end(rings, exterior);
        polygons.push((exterior, after))?;
        exterior = after;
    }
    Ok(polygons)
}

/// The first ring of positive area, or the number of rings.
fn first_exterior(rings: &[Vec<Point>]) -> usize
    ensures within { result ≤ length rings.now }
    ensures none { NoExterior (rings_of rings.now) 0 result }
    ensures there { (result ≡ length rings.now) ⊎ IsExterior (rings_of rings.now) result }
{
    if rings.is_empty() {
        return 0;
    }
    if is_exterior(&rings[0]) {
        return 0;
    }
    polygon_end(rings, 0)
}

/// Whether the area of a ring is positive.
fn is_exterior(vertices: &[Point]) -> bool
    ensures { IsTrue result ↔ pos 0 <ℤ doubled_area vertices.now }
{
    twice_area(vertices) > 0
}

/// Whether the first ring that has an area is a hole: then the areas don't tell which rings are
/// exteriors.
pub(crate) fn begin_with_hole(rings: &[Vec<Point>]) -> bool
    ensures { BeginWithExterior (rings_of rings.now) → ¬ IsTrue result }
{
    for ring in 0..rings.len() {
        if !has_no_area(&rings[ring]) {
            return !is_exterior(&rings[ring]);
        }
    }
    false
}

/// Whether a ring has no area.
fn has_no_area(vertices: &[Point]) -> bool
    ensures { IsTrue result ↔ (doubled_area vertices.now ≡ pos 0) }
{
    twice_area(vertices) == 0
}

/// Whether all right polygons of the old rings are polygons of the new ones, in their order. The
/// only error is that memory was refused.
pub(crate) fn are_kept(
    alloc: Global,
    old: &[Vec<Point>],
    judged: &Judged,
    new: &[Vec<Point>],
) -> Result<bool, AllocError>
    requires { AreJudged (rings_of old.now) judged.now.polygons.items judged.now.right.items }
    ensures { IfOk result (λ kept. IsTrue kept → AreKept (rings_of old.now) (rings_of new.now)) }
{
    let others = polygons_of(alloc, new)?;
    Ok(are_among(old, &judged.polygons, &judged.right, new, &others))
}

/// Whether the polygons that are marked are among the others, in their order.
fn are_among(
    old: &[Vec<Point>],
    polygons: &[(usize, usize)],
    right: &[bool],
    new: &[Vec<Point>],
    others: &[(usize, usize)],
) -> bool
    requires judged { AreJudged (rings_of old.now) polygons.now right.now }
    requires listed { ArePolygons (rings_of new.now) others.now }
    ensures { IsTrue result → AreKept (rings_of old.now) (rings_of new.now) }
{
    let mut next = 0;
    for polygon in 0..polygons.len() {
        if right[polygon] {
            let (exterior, after) = polygons[polygon];
            let Some(place) = find_from(old, exterior, after, new, others, next) else {
                return false;
            };
            next = place + 1;
        }
    }
    true
}

/// The first of the other polygons, from a number on, that has the rings of an old polygon, vertex
/// for vertex.
fn find_from(
    old: &[Vec<Point>],
    exterior: usize,
    after: usize,
    new: &[Vec<Point>],
    others: &[(usize, usize)],
    from: usize,
) -> Option<usize>
    requires in_order { exterior < after }
    requires within { after ≤ length old.now }
    requires listed { ArePolygons (rings_of new.now) others.now }
    ensures { IfSome result (IsFoundFrom (rings_of (slice_range old.now exterior after))
        (rings_of new.now) others.now from) }
{
    let rings = &old[exterior..after];
    for place in from..others.len() {
        let (begin, end) = others[place];
        if is_part(rings, new, begin, end) {
            return Some(place);
        }
    }
    None
}

/// Whether the new rings from one number up to another have the same vertices as these.
fn is_part(rings: &[Vec<Point>], new: &[Vec<Point>], begin: usize, end: usize) -> bool
    requires in_order { begin < end }
    requires within { end ≤ length new.now }
    ensures { IsTrue result → rings_of rings.now ≡ rings_of (slice_range new.now begin end) }
{
    are_same(rings, &new[begin..end])
}

/// Whether two lists of rings have the same vertices.
pub(crate) fn are_same(one: &[Vec<Point>], other: &[Vec<Point>]) -> bool
    ensures { IsTrue result → rings_of one.now ≡ rings_of other.now }
{
    if one.len() != other.len() {
        return false;
    }
    for ring in 0..one.len() {
        if !are_same_positions(&one[ring], &other[ring]) {
            return false;
        }
    }
    true
}

/// Whether two rings have the same vertices, from their first ones on.
fn are_same_positions(one: &[Point], other: &[Point]) -> bool
    ensures { IsTrue result → one.now ≡ other.now }
{
    if one.len() != other.len() {
        return false;
    }
    for vertex in 0..one.len() {
        if !is_same_position(one[vertex], other[vertex]) {
            return false;
        }
    }
    true
}

/// Whether two positions are the same.
pub(crate) fn is_same_position(one: Point, other: Point) -> bool
    ensures { IsTrue result ↔ (one ≡ other) }
{
    one == other
}
