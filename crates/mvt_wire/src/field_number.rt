//! The numbers of the fields of a tile's messages (Mapbox Vector Tile Specification 2.1, section 4
//! and its `vector_tile.proto`).

/// The layers of a tile.
pub const LAYERS: u32 = 3;

/// The name of a layer (section 4.1).
pub const LAYER_NAME: u32 = 1;

/// The features of a layer (section 4.1).
pub const FEATURES: u32 = 2;

/// The keys of a layer (section 4.1).
pub const KEYS: u32 = 3;

/// The values of a layer (section 4.1).
pub const VALUES: u32 = 4;

/// The extent of a layer (section 4.1).
pub const EXTENT: u32 = 5;

/// The version of a layer (section 4.1).
pub const VERSION: u32 = 15;

/// The text of a value (section 4.4).
pub const STRING_VALUE: u32 = 1;

/// The float of a value (section 4.4).
pub const FLOAT_VALUE: u32 = 2;

/// The double of a value (section 4.4).
pub const DOUBLE_VALUE: u32 = 3;

/// The signed number of a value, in two's complement (section 4.4).
pub const INT_VALUE: u32 = 4;

/// The number of a value that has no sign (section 4.4).
pub const UINT_VALUE: u32 = 5;

/// The signed number of a value, in zigzag form (section 4.4).
pub const SINT_VALUE: u32 = 6;

/// The truth value of a value (section 4.4).
pub const BOOL_VALUE: u32 = 7;

/// The id of a feature (section 4.2).
pub const FEATURE_ID: u32 = 1;

/// The tags of a feature (section 4.2).
pub const TAGS: u32 = 2;

/// The geometry type of a feature (section 4.2).
pub const GEOMETRY_TYPE: u32 = 3;

/// The geometry of a feature (section 4.2).
pub const GEOMETRY: u32 = 4;
