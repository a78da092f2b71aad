//! What is to become of a feature of a tile.

/// What is to become of one feature.
#[derive(Debug, PartialEq, Eq, Drop)]
pub struct Change {
    /// The ordinal of its layer in the tile.
    pub layer: usize,
    /// Its own ordinal in the layer, as the tile is before any change.
    pub feature: usize,
    /// The numbers of its new geometry, or None where it is left out.
    pub geometry: Option<Vec<u32>>,
}
