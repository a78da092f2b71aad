//! Whether rings are proper, as a sweep asks of them.
ghost use Rattle.std.specs.Prelude.{◌≡◌, ◌<◌, ◌↔◌, IsTrue, Some, length, slice_get};
ghost use Rattle.mvt_plane.specs.Geometry.Ring.{edges};
ghost use Rattle.mvt_sweep.specs.Calls.Proper.{IsProperRing};
ghost use Rattle.mvt_sweep.specs.Rings.{rings_of, AreProperRings};

use mvt_plane::{Edge, Point};

/// Whether each ring has three vertices or more, and none is at the position of the next one, as
/// `find_meeting` asks of rings. It takes no memory.
pub fn are_proper(rings: &[Vec<Point>]) -> bool
    ensures { IsTrue result ↔ AreProperRings (rings_of rings.now) }
{
    for ring in 0..rings.len() {
        if !is_proper(&rings[ring]) {
            return false;
        }
    }
    true
}

/// The same of one ring.
fn is_proper(ring: &[Point]) -> bool
    ensures { IsTrue result ↔ IsProperRing ring.now }
{
    if ring.len() < 3 {
        return false;
    }
    for vertex in 0..ring.len() {
        let edge = edge_at(ring, vertex);
        if is_same_position(edge.a, edge.b) {
            return false;
        }
    }
    true
}

/// The edge of a ring that begins in this vertex.
pub(crate) fn edge_at(ring: &[Point], vertex: usize) -> Edge
    requires { vertex < length ring.now }
    ensures { slice_get (edges ring.now) vertex ≡ Some result }
{
    let next = if vertex + 1 == ring.len() {
        0
    } else {
        vertex + 1
    };
    Edge {
        a: ring[vertex],
        b: ring[next],
    }
}

/// Whether two positions are the same.
fn is_same_position(one: Point, other: Point) -> bool
    ensures { IsTrue result ↔ (one ≡ other) }
{
    one == other
}
