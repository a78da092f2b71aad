//! A vertex of a ring, as a sweep over many rings knows it.
ghost use Rattle.mvt_plane.specs.Position.{IsPosition};

use mvt_plane::Point;

/// A vertex of a ring. Its number in the list of all vertices is also that of the edge that begins
/// in it.
#[derive(Clone, Copy)]
pub(crate) struct SweepVertex {
    pub(crate) position: Point,
    /// In the first vertex of a ring the number of the ring's last vertex, and in the last vertex
    /// that of the first; in every other vertex its own number.
    pub(crate) far_end: u32,
    ghost in_range: { IsPosition position },
}

/// What stands where a list has no vertex yet.
impl Default for SweepVertex {
    fn default() -> SweepVertex {
        SweepVertex {
            position: Point::origin(),
            far_end: 0,
        }
    }
}
