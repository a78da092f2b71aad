/// A tile: its layers, in the order of the bytes (Mapbox Vector Tile Specification 2.1, section 4).
#[derive(Debug, PartialEq, Eq, Drop)]
pub struct Tile<'a> {
    /// The layers, of any number.
    pub layers: Vec<Layer<'a>>,
}

/// A layer (section 4.1). Lists are in the order of the bytes.
#[derive(Debug, PartialEq, Eq, Drop)]
pub struct Layer<'a> {
    /// The version of the specification that the layer keeps, by its own word.
    pub version: u32,
    /// The name, a text in UTF-8.
    pub name: &'a str,
    /// The features, of any number.
    pub features: Vec<Feature>,
    /// What the even places of a feature's tags index, from 0.
    pub keys: Vec<&'a str>,
    /// What the odd places of a feature's tags index, from 0.
    pub values: Vec<Value<'a>>,
    /// The width and height of the tile in units of its coordinates; 4096 where the layer has none.
    pub extent: u32,
}

/// A feature (section 4.2).
#[derive(Debug, PartialEq, Eq, Drop)]
pub struct Feature {
    /// The id, any number of 64 bits, where the feature has one.
    pub id: Option<u64>,
    /// The index of a key, that of its value, and so on (section 4.4), of all the feature's fields
    /// of tags, joined.
    pub tags: Vec<u32>,
    /// What its geometry is.
    pub kind: Kind,
    /// Command and parameter integers (section 4.3), of all the feature's geometry fields, joined.
    pub geometry: Vec<u32>,
}

/// What a feature's geometry is (section 4.3.4), with the numbers 0 to 3.
#[derive(Clone, Copy, Debug, PartialEq, Eq)]
pub enum Kind {
    /// 0: nothing is known of the geometry.
    Unknown,
    /// 1: points.
    Point,
    /// 2: lines.
    LineString,
    /// 3: rings, of one polygon or several.
    Polygon,
}

/// The value of a tag (section 4.4): which of its seven fields is set, and to what.
#[derive(Clone, Copy, Debug, PartialEq, Eq)]
pub enum Value<'a> {
    /// `string_value`, a text in UTF-8.
    Text(&'a str),
    /// `float_value`: four bytes, as they are in the tile.
    Float(&'a [u8]),
    /// `double_value`: eight bytes, as they are in the tile.
    Double(&'a [u8]),
    /// `int_value`, encoded in two's complement.
    Int(i64),
    /// `uint_value`.
    Uint(u64),
    /// `sint_value`, encoded as a zigzag number.
    Sint(i64),
    /// `bool_value`: false where its varint is 0.
    Bool(bool),
}
