//! The rings that were given, with their edges.

use crate::near::edges::OldEdges;
use mvt_plane::Point;

/// The rings that were given, with their edges.
#[derive(Clone, Copy)]
pub(super) struct Old<'a> {
    /// The rings.
    pub(super) rings: &'a [Vec<Point>],
    /// Their edges by position.
    pub(super) edges: &'a OldEdges,
}
