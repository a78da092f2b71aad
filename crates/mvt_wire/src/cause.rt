ghost use Rattle.std.specs.Prelude.{◌≡◌};

/// What is wrong with the wire encoding of a tile (Protocol Buffers encoding, and the messages of
/// the Mapbox Vector Tile Specification 2.1, section 4). The numbers are those of `code`.
#[derive(Clone, Copy, Debug, PartialEq, Eq)]
pub enum WireCode {
    /// 101: a varint ends too early.
    Ends = 101,
    /// 102: a varint is too long: its tenth byte is above 1.
    TooLong,
    /// 103: a field key is 2^32 or more, or its field number is 0.
    BadNumber,
    /// 104: a field key has wire type 3, 4, 6 or 7.
    BadWireType,
    /// 105: a payload runs past the end of its message.
    PastEnd,
    /// 106: a known field has another wire type than its own.
    OtherType,
    /// 107: a singular field occurs again.
    Again,
    /// 108: a required field is missing.
    Missing,
    /// 109: a value has none or several of its fields.
    OneField,
    /// 110: a text isn't UTF-8.
    NotUtf8,
    /// 111: a number is out of the range of its field.
    OutOfRange,
}

impl WireCode {
    ghost use Rattle.mvt_wire.specs.Code.{code_of};

    /// The code's number, from 101 to 111.
    pub fn code(&self) -> u16
        ensures { result ≡ code_of self.now }
    {
        *self as u16
    }
}

/// One fault of the wire encoding, or of the tile's schema.
#[derive(Clone, Copy, Debug, PartialEq, Eq)]
pub struct WireCause {
    /// What is wrong.
    pub code: WireCode,
    /// The offset in bytes, counted from 0 at the first byte of all that was given.
    pub at: usize,
    /// The number of the field, or 0 where the defect is about no field with a number.
    pub field: u32,
}
