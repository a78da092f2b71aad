//! Tests of one or two edges of a feature's rings (Mapbox Vector Tile Specification 2.1, section
//! 4.3.4.4). They take edges as they come from a walk over vertices, and want no list of them.

ghost use Rattle.std.specs.Prelude.{◌≡◌, ◌↔◌, IsTrue, List, ◌*ℤ◌};
ghost use Rattle.mvt_confirm.specs.Calls.EdgeTests.{AreEdgesOf, IsApartAfter};
ghost use Rattle.mvt_plane.specs.Geometry.Inside.{PassesOver};
ghost use Rattle.mvt_rules.specs.Meeting.{ComesBefore, MeetsWrongly};
ghost use Rattle.mvt_plane.specs.Position.{Position, IsCoordinate};
ghost use Rattle.mvt_plane.specs.Geometry.RationalPoint.{IsAt, IsBounded, LiesOn};
ghost use Rattle.mvt_plane.specs.Geometry.Ring.{next_round};

use mvt_fault::RingEdge;
use mvt_plane::{Edge, Hpoint, Point, on_edge, orient};

/// An edge of a feature's rings, with its ordinals.
#[derive(Clone, Copy)]
pub(crate) struct NumberedEdge {
    /// The ordinals of its ring and of the edge.
    pub number: RingEdge,
    /// The vertices where it begins and ends.
    pub edge: Edge,
}

/// Whether the edge from `a` to `b` passes over the position: whether it goes past the position's x
/// and has a greater y there. A negative orientation says so of an edge that goes to the right, and
/// a positive one of an edge that goes to the left.
pub(crate) fn passes_over(position: Point, a: Point, b: Point) -> bool
    ensures { IsTrue result ↔ PassesOver position (record { a = a; b = b }) }
{
    let begins_up_to = a.x() <= position.x();
    let ends_up_to = b.x() <= position.x();
    if begins_up_to == ends_up_to {
        return false;
    }
    let turn = orient(a, b, position);
    if begins_up_to { turn < 0 } else { turn > 0 }
}

/// Whether two edges are in order: by their rings, and in one ring by their own ordinals.
pub(crate) fn comes_before(first: RingEdge, second: RingEdge) -> bool
    ensures { IsTrue result ↔ ComesBefore first second }
{
    first.ring < second.ring || (first.ring == second.ring && first.edge < second.edge)
}

/// Whether two edges of a feature meet wrongly at the rational point (x / w, y / w), whose numbers
/// are in the range of `Hpoint`, and are named in order. The count is that of the vertices of their
/// ring, if they are in one.
pub(crate) fn meets_in_order(
    first: &NumberedEdge,
    second: &NumberedEdge,
    vertex_count: usize,
    x: i128,
    y: i128,
    w: i128,
) -> bool
    ensures { (rings : List (List Position)) → AreEdgesOf rings first.now second.now vertex_count
        → IsTrue result
        ↔ (ComesBefore first.now.number second.now.number
        × IsBounded (record { x = x; y = y; w = w })
        × MeetsWrongly rings first.now.number second.now.number
        (record { x = x; y = y; w = w })) }
{
    if !comes_before(first.number, second.number) {
        return false;
    }
    match Hpoint::new(x, y, w) {
        Some(point) => meets_at(first, second, vertex_count, &point),
        None => false,
    }
}

/// Whether two different edges of a feature have the rational point in common, and it isn't the
/// vertex that they share as neighbours in a ring. The count is that of the vertices of their ring,
/// if they are in one.
pub(crate) fn meets_at(
    first: &NumberedEdge,
    second: &NumberedEdge,
    vertex_count: usize,
    point: &Hpoint,
) -> bool
    ensures { (rings : List (List Position)) → AreEdgesOf rings first.now second.now vertex_count
        → IsTrue result
        ↔ MeetsWrongly rings first.now.number second.now.number point.now }
{
    if first.number == second.number {
        return false;
    }
    if !lies_on_both(point, first.edge, second.edge) {
        return false;
    }
    is_apart_from_shared(first, second, vertex_count, point)
}

/// Whether the rational point lies on both edges.
fn lies_on_both(point: &Hpoint, first: Edge, second: Edge) -> bool
    ensures { IsTrue result ↔ (LiesOn point.now first × LiesOn point.now second) }
{
    on_edge(point, first.a, first.b) && on_edge(point, second.a, second.b)
}

/// Whether the rational point isn't a vertex that the two edges share as neighbours in their ring
/// of so many vertices.
fn is_apart_from_shared(
    first: &NumberedEdge,
    second: &NumberedEdge,
    vertex_count: usize,
    point: &Hpoint,
) -> bool
    ensures { IsTrue result ↔ (IsApartAfter first.now second.now vertex_count point.now
        × IsApartAfter second.now first.now vertex_count point.now) }
{
    is_apart_after(first, second, vertex_count, point)
        && is_apart_after(second, first, vertex_count, point)
}

/// Whether the second edge doesn't follow the first in their ring of so many vertices, or the
/// rational point isn't the vertex between them.
fn is_apart_after(
    first: &NumberedEdge,
    second: &NumberedEdge,
    vertex_count: usize,
    point: &Hpoint,
) -> bool
    ensures { IsTrue result ↔ IsApartAfter first.now second.now vertex_count point.now }
{
    if second.number.ring == first.number.ring
        && is_next_round(vertex_count, first.number.edge, second.number.edge)
    {
        return is_apart_from(point, second.edge.a);
    }
    true
}

/// Whether a vertex comes after another in a ring of so many vertices, going round: after the last
/// comes vertex 0. The numbers may be any.
pub(crate) fn is_next_round(vertex_count: usize, number: usize, next: usize) -> bool
    ensures { IsTrue result ↔ (next ≡ next_round vertex_count number) }
{
    if vertex_count.checked_sub(1) == Some(number) {
        next == 0
    } else {
        next.checked_sub(1) == Some(number)
    }
}

/// Whether the rational point isn't the vertex.
pub(crate) fn is_apart_from(point: &Hpoint, vertex: Point) -> bool
    ensures { IsTrue result ↔ ¬ IsAt point.now vertex }
{
    point.x() != times_width(vertex.x(), point) || point.y() != times_width(vertex.y(), point)
}

/// A coordinate times the `w` of a rational point, from -2^93 to 2^93.
fn times_width(coordinate: i32, point: &Hpoint) -> i128
    requires { IsCoordinate coordinate }
    ensures { result ≡ coordinate *ℤ point.now.w }
{
    i128::from(coordinate) * point.w()
}
