//! The rings that numbers draw, where a ring may have few positions and a step no length.
ghost use Rattle.std.specs.Prelude.{IfOk, IfSome};
ghost use Rattle.mvt_mend.specs.Loose.{DrawLoosely};
ghost use Rattle.mvt_sweep.specs.Rings.{rings_of};

mod pen;

use mvt_plane::Point;
use pen::{Pen, draw_ring};
use std::alloc::{AllocError, Global};

/// The rings that the numbers of a geometry draw as those of polygons do (Mapbox Vector Tile
/// Specification 2.1, section 4.3), where counts of LineTo may be 0 or 1 and steps may be (0, 0),
/// which are faults of commands. None where they draw none. The only error is that memory was
/// refused.
pub fn loose_rings(alloc: Global, numbers: &[u32]) -> Result<Option<Vec<Vec<Point>>>, AllocError>
    ensures { IfOk result (λ drawn. IfSome drawn (λ rings.
        DrawLoosely numbers.now (rings_of rings.items))) }
{
    let mut rings = Vec::new(alloc);
    let mut pen = Pen {
        at: 0,
        here: Point::origin(),
    };
    'rings: while pen.at < numbers.len() {
        let Some(ring) = draw_ring(alloc, numbers, &mut pen)? else {
            return Ok(None);
        };
        rings.push(ring)?;
    }
    Ok(Some(rings))
}
