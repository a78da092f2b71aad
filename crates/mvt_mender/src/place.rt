//! Where in a tile a feature is.

/// A feature by its ordinals, counted from 0.
#[derive(Clone, Copy, Debug, PartialEq, Eq)]
pub(crate) struct FeaturePlace {
    /// The ordinal of its layer in the tile.
    pub(crate) layer: usize,
    /// Its own ordinal in the layer.
    pub(crate) feature: usize,
}
