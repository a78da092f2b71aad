//! The laws of rings (section 4.3.4.4).

ghost use Rattle.std.specs.Prelude.{◌≡◌, ℕ, List, length, slice_get, Some};
ghost use Rattle.mvt_plane.specs.Position.{Position};
ghost use Rattle.mvt_plane.specs.Geometry.Ring.{edges, next_round};
ghost use Rattle.mvt_plane.specs.declared.geometry.edge.Edge.{Edge};

/// A ring has as many edges as vertices, and each goes from the vertex of its own number to the
/// next one, the last to the first vertex.
pub fn an_edge_a_vertex()
    ensures count { (ring : List Position) → length (edges ring) ≡ length ring }
    ensures ends { (ring : List Position) (number : ℕ) (edge : Edge)
        → slice_get (edges ring) number ≡ Some edge →
        (slice_get ring number ≡ Some edge.a)
        × (slice_get ring (next_round (length ring) number) ≡ Some edge.b) }
{}
