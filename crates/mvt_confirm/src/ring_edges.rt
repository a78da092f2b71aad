//! The edges of one ring, one after another (Mapbox Vector Tile Specification 2.1, section
//! 4.3.4.4).

ghost use Rattle.std.specs.Prelude.{◌≡◌, ◌↔◌, ◌<◌, ◌≤◌, IsTrue, IfNone, IfSome, List, [], length, slice_get, Some};
ghost use Rattle.mvt_confirm.specs.Calls.Vertices.{RingsLeft};
ghost use Rattle.mvt_confirm.specs.Calls.RingEdges.{EdgeWalk, EdgesLeft, GivesEdge, count_ahead};
ghost use Rattle.mvt_plane.specs.Geometry.Inside.{PassesOver, HoldsOfOdd};
ghost use Rattle.mvt_plane.specs.Position.{Position};
ghost use Rattle.mvt_plane.specs.Geometry.Ring.{edges};
ghost use Rattle.mvt_plane.specs.declared.geometry.edge.Edge.{Edge};

use crate::crossings::Crossings;
use crate::ring_faults::pass_rings;
use crate::vertices::Vertices;
use mvt_plane::{Edge, Point};
use std::marker::Model;

/// A cursor over the edges of a ring. Each goes from a vertex to the next one, the last to the
/// first vertex.
#[derive(Drop)]
pub(crate) struct RingEdges<'a> {
    vertices: Vertices<'a>,
    /// The ring's first vertex.
    first: Point,
    /// Where the next edge begins.
    from: Point,
    /// Whether the edge back to the first vertex was given.
    is_closed: bool,
}

impl<'a> Model for RingEdges<'a> {
    ghost Value = { EdgeWalk };

    ghost view = { λ walk. record {
      vertices = walk.vertices;
      first = walk.first;
      from = walk.from;
      is_closed = walk.is_closed;
    } };
}

/// The edges of the ring with this ordinal; None where there are fewer rings.
pub(crate) fn edges_of_ring(mut vertices: Vertices, ring: usize) -> Option<RingEdges>
    ensures there { IfSome result (λ walk. (rings : List (List Position))
        → RingsLeft vertices.entry rings
        → (positions : List Position) × (slice_get rings ring ≡ Some positions)
        × EdgesLeft walk (edges positions)) }
    ensures none { IfNone result ((rings : List (List Position)) → RingsLeft vertices.entry rings
        → length rings ≤ ring) }
{
    if !pass_rings(&mut vertices, ring) {
        return None;
    }
    let first = vertices.next_vertex()?.point;
    Some(RingEdges {
        vertices,
        first,
        from: first,
        is_closed: false,
    })
}

impl<'a> RingEdges<'a> {
    /// How many edges are left.
    pub(crate) fn count(&self) -> usize
        ensures { (left : List Edge) → EdgesLeft self.now left → result ≡ length left }
    {
        if self.is_closed {
            0
        } else {
            self.vertices.vertices_left() as usize + 1
        }
    }

    /// The next edge; None where the last one was given.
    pub(crate) fn next_edge(&mut self) -> Option<Edge>
        ensures edge { IfSome result (GivesEdge self.old self.new) }
        ensures fewer { IfSome result (λ _. count_ahead self.new < count_ahead self.old) }
        ensures end { IfNone result ((left : List Edge) → EdgesLeft self.old left → left ≡ []) }
    {
        if self.is_closed {
            return None;
        }
        let a = self.from;
        let b = if self.vertices.vertices_left() == 0 {
            self.is_closed = true;
            self.first
        } else {
            self.vertices.next_vertex()?.point
        };
        self.from = b;
        Some(Edge { a, b })
    }
}

/// The edge with this ordinal, of those that are left; None where there are fewer.
pub(crate) fn edge_at(mut walk: RingEdges, edge: usize) -> Option<Edge>
    ensures there { IfSome result (λ found. (left : List Edge) → EdgesLeft walk.entry left
        → slice_get left edge ≡ Some found) }
    ensures none { IfNone result ((left : List Edge) → EdgesLeft walk.entry left
        → length left ≤ edge) }
{
    'edges: for _ in 0..edge {
        walk.next_edge()?;
    }
    walk.next_edge()
}

/// Whether an odd number of the edges that are left pass over a position.
pub(crate) fn odd_number_over(position: Point, mut walk: RingEdges) -> bool
    ensures { (left : List Edge) → EdgesLeft walk.entry left
        → (IsTrue result ↔ HoldsOfOdd (PassesOver position) left) }
{
    let mut crossings = Crossings::new();
    'edges: while let Some(edge) = walk.next_edge() {
        crossings.pass(position, edge.a, edge.b);
    }
    crossings.is_odd()
}
