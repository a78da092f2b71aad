//! What rings measure together.
ghost use Rattle.std.specs.Prelude.{IfSome};
ghost use Rattle.mvt_sweep.specs.Rings.{rings_of};
ghost use Rattle.mvt_mender.specs.Measures.{AreMeasuresOf};

use mvt_plane::{Point, twice_area};

/// What the rings of a feature measure together (Mapbox Vector Tile Specification 2.1, section
/// 4.3.4.4).
#[derive(Clone, Copy, Debug, PartialEq, Eq)]
pub struct Measures {
    /// Twice the area, in square units of the tile's coordinates; that of a hole counts as negative.
    pub doubled_area: i128,
    /// How many rings have positive area, so that a polygon begins with each of them.
    pub polygons: usize,
    /// How many vertices there are.
    pub vertices: usize,
}

/// The measures of rings, or None where one doesn't fit its type, for which no memory has room.
pub(crate) fn measures_of(rings: &[Vec<Point>]) -> Option<Measures>
    ensures { IfSome result (AreMeasuresOf (rings_of rings.now)) }
{
    let mut doubled_area = 0i128;
    let mut polygons = 0;
    let mut vertices = 0usize;
    'rings: for ring in rings {
        let area = twice_area(ring);
        doubled_area = doubled_area.checked_add(area)?;
        polygons += usize::from(area > 0);
        vertices = vertices.checked_add(ring.len())?;
    }
    Some(Measures {
        doubled_area,
        polygons,
        vertices,
    })
}
