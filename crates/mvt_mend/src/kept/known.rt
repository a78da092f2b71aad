//! Edges that are known to meet wrongly.
ghost use Rattle.std.specs.Prelude.{◌≢◌, ◌⊎◌, ◌+◌, ◌<◌, IsTrue, length};
ghost use Rattle.mvt_mend.specs.Calls.Judged.{AreRightRings};
ghost use Rattle.mvt_plane.specs.Geometry.RationalPoint.{LiesOn};
ghost use Rattle.mvt_plane.specs.declared.geometry.edge.Edge.{Edge};
ghost use Rattle.mvt_rules.specs.Meeting.{IsEdgeOf, MeetsWrongly};
ghost use Rattle.mvt_rules.specs.Polygon.{IsPolygon};
ghost use Rattle.mvt_sweep.specs.Rings.{rings_of};

use crate::near::edge_at;
use mvt_fault::RingEdge;
use mvt_plane::{Hpoint, Point, on_edge};
use mvt_sweep::Meeting;

/// Whether two edges that are known are of these rings, the first of which has this number among
/// all, and meet wrongly. Of those that follow each other in a ring that isn't found out.
pub(super) fn is_known_wrong(rings: &[Vec<Point>], number: usize, known: Option<&Meeting>) -> bool
    ensures { IsTrue result → IsPolygon (rings_of rings.now) 0
        (record { exterior = 0; after = length rings.now }) → ¬ AreRightRings (rings_of rings.now) }
{
    let Some(meeting) = known else {
        return false;
    };
    let Some(first_ring) = meeting.first_ring.checked_sub(number) else {
        return false;
    };
    let Some(second_ring) = meeting.second_ring.checked_sub(number) else {
        return false;
    };
    let first = RingEdge {
        ring: first_ring,
        edge: meeting.first_edge,
    };
    let second = RingEdge {
        ring: second_ring,
        edge: meeting.second_edge,
    };
    meet_wrongly(rings, first, second, &meeting.point)
}

/// Whether two edges have this point in common and don't follow each other.
fn meet_wrongly(rings: &[Vec<Point>], first: RingEdge, second: RingEdge, point: &Hpoint) -> bool
    ensures { IsTrue result → MeetsWrongly (rings_of rings.now) first second point.now }
{
    if !are_apart(first, second) {
        return false;
    }
    if !is_on_edge(rings, first, point) {
        return false;
    }
    is_on_edge(rings, second, point)
}

/// Whether two edges are of different rings, or some edge is between them in their ring both ways.
fn are_apart(first: RingEdge, second: RingEdge) -> bool
    ensures { IsTrue result → (first.ring ≢ second.ring)
        ⊎ ((0 < first.edge) × (first.edge + 1 < second.edge)) }
{
    if first.ring != second.ring {
        return true;
    }
    0 < first.edge && first.edge < second.edge && second.edge - first.edge > 1
}

/// Whether a ring has an edge of this number, and a point lies on it.
fn is_on_edge(rings: &[Vec<Point>], number: RingEdge, point: &Hpoint) -> bool
    ensures { IsTrue result → (it : Edge) × IsEdgeOf (rings_of rings.now) number it
        × LiesOn point.now it }
{
    if number.ring >= rings.len() {
        return false;
    }
    let vertices = &rings[number.ring];
    if number.edge >= vertices.len() {
        return false;
    }
    let it = edge_at(vertices, number.edge);
    on_edge(point, it.a, it.b)
}
