//! Which rings of a feature make up which polygon.
ghost use Rattle.std.specs.Prelude.{◌≡◌, ◌<◌, ◌≤◌, ◌⊎◌, ◌↔◌, suc, length, pos, ◌<ℤ◌, IfOk, IsTrue};
ghost use Rattle.mvt_rules.specs.Polygon.{IsExterior, NoExterior};
ghost use Rattle.mvt_plane.specs.Geometry.Ring.{doubled_area};
ghost use Rattle.mvt_rules.specs.Ring.{ArePolygonRings};
ghost use Rattle.mvt_polygon.specs.Polygons.{ArePolygons};
ghost use Rattle.mvt_sweep.specs.Rings.{rings_of};

use mvt_plane::{Point, twice_area};
use std::alloc::{AllocError, Global};

/// The ring after the last one of the polygon that begins with the ring `exterior`: the next one of
/// positive area, or the number of rings (Mapbox Vector Tile Specification 2.1, section 4.3.4.4).
/// It takes no memory.
pub fn polygon_end(rings: &[Vec<Point>], exterior: usize) -> usize
    requires { exterior < length rings.now }
    ensures further { exterior < result }
    ensures within { result ≤ length rings.now }
    ensures holes { NoExterior (rings_of rings.now) (suc exterior) result }
    ensures ends { (result ≡ length rings.now) ⊎ IsExterior (rings_of rings.now) result }
{
    for ring in exterior + 1..rings.len() {
        if is_exterior(&rings[ring]) {
            return ring;
        }
    }
    rings.len()
}

/// Whether the ring is an exterior: whether its area is positive.
fn is_exterior(vertices: &[Point]) -> bool
    ensures { IsTrue result ↔ pos 0 <ℤ doubled_area vertices.now }
{
    twice_area(vertices) > 0
}

/// The polygons of a feature whose rings have no fault of their own (`check_rings`): of each its
/// first ring, the exterior, and the ring after its last one. The only error is that memory was
/// refused.
pub fn groups(alloc: Global, rings: &[Vec<Point>]) -> Result<Vec<(usize, usize)>, AllocError>
    requires { ArePolygonRings (rings_of rings.now) }
    ensures { IfOk result (λ polygons. ArePolygons (rings_of rings.now) polygons.items) }
{
    let mut polygons = Vec::new(alloc);
    let mut exterior = 0;
    'polygons: while exterior < rings.len() {
        let after = polygon_end(rings, exterior);
        polygons.push((exterior, after))?;
        exterior = after;
    }
    Ok(polygons)
}
