//! Which rules a tile is held against.

/// How far the polygons of a tile are kept apart.
#[derive(Clone, Copy, PartialEq, Eq, Debug)]
pub enum Profile {
    /// Each polygon by itself: its rings neither cross nor touch.
    Polygon,
    /// All polygons of a feature: none of its rings cross or touch, whichever polygon they belong
    /// to.
    Feature,
}
