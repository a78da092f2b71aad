/// The message of a tile that a wire fault is in (Mapbox Vector Tile Specification 2.1, section 4).
/// Ordinals count from 0, in the order of the bytes.
#[derive(Clone, Copy, Debug, PartialEq, Eq)]
pub enum Scope {
    /// The tile itself (section 4).
    Tile,
    /// The layer with this ordinal among the tile's layers (section 4.1).
    Layer(usize),
    /// A layer's ordinal, and that of a value among the layer's values (section 4.4).
    Value(usize, usize),
    /// A layer's ordinal, and that of a feature among the layer's features (section 4.2).
    Feature(usize, usize),
}
