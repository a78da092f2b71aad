//! Whether a ring lies in another one.
ghost use Rattle.std.specs.Prelude.{◌≡◌, ◌<◌, length, pos, slice_get, IsTrue, Some};
ghost use Rattle.std.specs.Ordering.{int_cmp};
ghost use Rattle.mvt_plane.specs.Geometry.Apart.{HaveNothingInCommon};
ghost use Rattle.mvt_plane.specs.Geometry.Measure.{orientation};
ghost use Rattle.mvt_plane.specs.Geometry.Ring.{edges};
ghost use Rattle.mvt_sweep.specs.Bounds.{AreBoundsOf};
ghost use Rattle.mvt_feature.specs.Calls.Islands.{AreBesideEdge, LiesInRing};

use mvt_plane::{Edge, Point, inside, side};
use mvt_sweep::Bounds;
use std::cmp::Ordering;

/// How many edges may come near a ring that lies within them. Each of these is held against all
/// vertices of the ring.
const MOST_NEAR: usize = 8;

/// Whether a ring, of which these are bounds, lies in another one: they have no point in common,
/// and all vertices of the one are inside the other. It says no, too, where many edges of the other
/// one come near. It takes time in proportion to the vertices of both.
pub(super) fn lies_in(ring: &[Point], around: &[Point], bounds: &Bounds) -> bool
    requires some { 0 < length ring.now }
    requires bounds { AreBoundsOf ring.now bounds.now }
    ensures { IsTrue result → LiesInRing ring.now around.now }
{
    inside(ring[0], around) && is_clear(ring, around, bounds)
}

/// Whether it is known at once that the two rings have no point in common: but for a few edges of
/// the other one all have bounds that are apart from those of the ring, and these few have all of
/// it on one side.
fn is_clear(ring: &[Point], around: &[Point], bounds: &Bounds) -> bool
    requires some { 0 < length ring.now }
    requires bounds { AreBoundsOf ring.now bounds.now }
    ensures { IsTrue result → HaveNothingInCommon ring.now around.now }
{
    let mut near = 0;
    for number in 0..around.len() {
        let edge = edge_at(around, number);
        if !Bounds::of_edge(&edge).are_apart(bounds) {
            if near >= MOST_NEAR || !is_beside(ring, &edge) {
                return false;
            }
            near += 1;
        }
    }
    true
}

/// The edge of this number of a ring.
fn edge_at(ring: &[Point], number: usize) -> Edge
    requires { number < length ring.now }
    ensures { slice_get (edges ring.now) number ≡ Some result }
{
    let next = if number + 1 == ring.len() {
        0
    } else {
        number + 1
    };
    Edge {
        a: ring[number],
        b: ring[next],
    }
}

/// Whether all vertices of a ring are on one side of the line through an edge, and none is on the
/// line.
fn is_beside(ring: &[Point], edge: &Edge) -> bool
    requires { 0 < length ring.now }
    ensures { IsTrue result → AreBesideEdge ring.now edge.now }
{
    let first = side(edge.a, edge.b, ring[0]);
    for vertex in 0..ring.len() {
        if !is_on_side(first, edge, ring[vertex]) {
            return false;
        }
    }
    first.is_ne()
}

/// Whether a vertex is on this side of the line through an edge.
fn is_on_side(first: Ordering, edge: &Edge, vertex: Point) -> bool
    ensures { IsTrue result → first ≡ int_cmp (orientation edge.now.a edge.now.b vertex) (pos 0) }
{
    first == side(edge.a, edge.b, vertex)
}
