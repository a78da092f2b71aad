//! The rings around what is filled.

use mvt_plane::Point;

/// Rings, and what their edges come of.
#[derive(Drop)]
pub struct Outlines {
    /// The rings, of each polygon the exterior first.
    pub rings: Vec<Vec<Point>>,
    /// Ring by ring and vertex by vertex, the number of the old edge that the edge comes of that
    /// begins there.
    pub witnesses: Vec<u32>,
}
