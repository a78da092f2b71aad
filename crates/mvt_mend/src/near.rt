//! Whether new positions are near old edges.
ghost use Rattle.std.specs.Prelude.{◌≡◌, ◌<◌, ◌≤◌, ℕ, IsTrue, length, slice_get, Some};
ghost use Rattle.mvt_mend.specs.Near.{AreNear, IsNear};
ghost use Rattle.mvt_plane.specs.Geometry.Ring.{edges};
ghost use Rattle.mvt_plane.specs.Position.{Position};
ghost use Rattle.mvt_sweep.specs.Rings.{rings_of};

mod close;
pub(crate) mod edges;

use crate::near::edges::OldEdges;
use close::is_close_to_edge;
use mvt_plane::{Edge, Point};
use mvt_segments::Work;

/// Whether each vertex of the new rings is near the old ones: within two units, along each axis, of
/// a point of an edge. `edges` are those of the old rings; `witnesses` has, vertex by vertex of the
/// new rings, the number of the old edge that the edge comes of that begins there. This one is tried
/// first, then that of the vertex before. Else all edges are, as far as the work suffices; where it
/// doesn't, the answer is no.
pub(crate) fn are_near(
    old: &[Vec<Point>],
    edges: &OldEdges,
    witnesses: &[u32],
    new: &[Vec<Point>],
    work: &mut Work,
) -> bool
    ensures near { IsTrue result → AreNear (rings_of old.now) (rings_of new.now) }
    ensures no_more { work.new ≤ work.old }
{
    let mut left = witnesses;
    for ring in 0..new.len() {
        if !is_ring_near(old, edges, left, &new[ring], work) {
            return false;
        }
        left = left.get(new[ring].len()..).unwrap_or_default();
    }
    true
}

/// Whether each vertex of one of the rings is near.
fn is_ring_near(
    old: &[Vec<Point>],
    edges: &OldEdges,
    witnesses: &[u32],
    vertices: &[Point],
    work: &mut Work,
) -> bool
    ensures near { IsTrue result → (vertex : ℕ) (position : Position)
        → slice_get vertices.now vertex ≡ Some position → IsNear (rings_of old.now) position }
    ensures no_more { work.new ≤ work.old }
{
    for vertex in 0..vertices.len() {
        let before = if vertex == 0 {
            vertices.len() - 1
        } else {
            vertex - 1
        };
        let named = [witnesses.get(vertex), witnesses.get(before)];
        if !is_near(old, edges, named, vertices[vertex], work) {
            return false;
        }
    }
    true
}

/// Whether a position is near the old rings, of which these edges are tried first.
fn is_near(
    old: &[Vec<Point>],
    edges: &OldEdges,
    named: [Option<&u32>; 2],
    position: Point,
    work: &mut Work,
) -> bool
    ensures near { IsTrue result → IsNear (rings_of old.now) position }
    ensures no_more { work.new ≤ work.old }
{
    let [first, second] = named;
    if is_near_named(old, edges, first, position) {
        return true;
    }
    if is_near_named(old, edges, second, position) {
        return true;
    }
    is_near_any(old, position, work)
}

/// Whether a position is near the edge of this number, if there is one.
fn is_near_named(
    old: &[Vec<Point>],
    edges: &OldEdges,
    number: Option<&u32>,
    position: Point,
) -> bool
    ensures { IsTrue result → IsNear (rings_of old.now) position }
{
    let Some(number) = number else {
        return false;
    };
    let Some((ring, vertex)) = edges.place(*number) else {
        return false;
    };
    is_near_edge(old, ring, vertex, position)
}

/// Whether a position is near any edge of the old rings, as far as the work suffices.
fn is_near_any(old: &[Vec<Point>], position: Point, work: &mut Work) -> bool
    ensures near { IsTrue result → IsNear (rings_of old.now) position }
    ensures no_more { work.new ≤ work.old }
{
    for ring in 0..old.len() {
        if !work.spend(old[ring].len() as u64) {
            return false;
        }
        if is_near_ring(old, ring, position) {
            return true;
        }
    }
    false
}

/// Whether a position is near an edge of an old ring.
fn is_near_ring(old: &[Vec<Point>], ring: usize, position: Point) -> bool
    ensures { IsTrue result → IsNear (rings_of old.now) position }
{
    let Some(vertices) = old.get(ring) else {
        return false;
    };
    for vertex in 0..vertices.len() {
        if is_near_edge(old, ring, vertex, position) {
            return true;
        }
    }
    false
}

/// Whether a position is near the edge of an old ring that begins at this vertex, if there is one.
fn is_near_edge(old: &[Vec<Point>], ring: usize, vertex: usize, position: Point) -> bool
    ensures { IsTrue result → IsNear (rings_of old.now) position }
{
    if ring >= old.len() {
        return false;
    }
    let vertices = &old[ring];
    if vertex >= vertices.len() {
        return false;
    }
    let edge = edge_at(vertices, vertex);
    is_close_to_edge(position, &edge)
}

/// The edge of a ring that begins at this vertex.
pub(crate) fn edge_at(ring: &[Point], vertex: usize) -> Edge
    requires { vertex < length ring.now }
    ensures { slice_get (edges ring.now) vertex ≡ Some result }
{
    let next = if vertex + 1 == ring.len() {
        0
    } else {
        vertex + 1
    };
    Edge {
        a: ring[vertex],
        b: ring[next],
    }
}
