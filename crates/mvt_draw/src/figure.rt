use mvt_plane::Point;

/// What the geometry of a feature draws (Mapbox Vector Tile Specification 2.1, section 4.3.4):
/// positions in the coordinates of the tile, in the order of drawing. Any value may be built; not
/// every one has a spelling.
#[derive(Debug, PartialEq, Eq, Drop)]
pub enum Figure {
    /// Points.
    Points(Vec<Point>),
    /// Lines, each of at least two positions where `draw` gives them.
    Lines(Vec<Vec<Point>>),
    /// Rings, of one polygon or several, each of at least three positions where `draw` gives them;
    /// the last position is joined to the first.
    Rings(Vec<Vec<Point>>),
    /// Nothing is known of the geometry.
    Unknown,
}
