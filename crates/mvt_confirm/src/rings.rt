//! The areas of rings, by walks over their vertices (Mapbox Vector Tile Specification 2.1, section
//! 4.3.4.4).

ghost use Rattle.std.specs.Prelude.{◌≡◌, ◌↔◌, ◌<◌, IfNone, IfSome, IsTrue};
ghost use Rattle.mvt_confirm.specs.Calls.Vertices.{EndsVertices};
ghost use Rattle.mvt_confirm.specs.Calls.Rings.{GivesRing};
ghost use Rattle.mvt_wire.specs.Numbers.{most_left};

use crate::vertices::Vertices;
use mvt_plane::{Point, area_part};

/// A ring's doubled area, and whether it is closed.
#[derive(Clone, Copy)]
pub(crate) struct Measure {
    /// Twice the area that it goes round, in square units of the tile's coordinates: positive for
    /// an exterior, negative for a hole.
    pub(crate) doubled_area: i128,
    /// Whether its last vertex is at the position of the first one.
    pub(crate) is_closed: bool,
}

/// Goes over the next ring; None where none is left.
pub(crate) fn next_ring(vertices: &mut Vertices) -> Option<Measure>
    ensures ring { IfSome result (GivesRing vertices.old vertices.new) }
    ensures end { IfNone result (EndsVertices vertices.old) }
    ensures fewer { IfSome result (λ _.
        most_left vertices.new.numbers < most_left vertices.old.numbers) }
{
    let vertex = vertices.next_vertex()?;
    let first = vertex.point;
    let mut last = first;
    let mut is_over = vertex.is_last;
    let mut area = 0;
    'vertices: while !is_over {
        let vertex = vertices.next_vertex()?;
        area += i128::from(area_part(last, vertex.point));
        last = vertex.point;
        is_over = vertex.is_last;
    }
    Some(Measure {
        doubled_area: area + i128::from(area_part(last, first)),
        is_closed: is_same(last, first),
    })
}

/// Whether two positions are the same.
fn is_same(a: Point, b: Point) -> bool
    ensures { IsTrue result ↔ (a ≡ b) }
{
    a == b
}
