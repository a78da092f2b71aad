ghost use Rattle.std.specs.Prelude.{◌≡◌};

/// A field of a message (Protocol Buffers encoding, "Message Structure").
#[derive(Clone, Copy, Debug)]
pub struct Field<'a> {
    /// The field number, from 1 to 2^29 - 1.
    pub number: u32,
    /// The offset of the field's key.
    pub at: usize,
    /// The payload.
    pub body: Body<'a>,
}

/// A field's payload, by its wire type. Offsets are in bytes, and places in all that the reader was
/// given.
#[derive(Clone, Copy, Debug)]
pub enum Body<'a> {
    /// Wire type 0: the varint's value, and the offset of its first byte.
    Varint { value: u64, at: usize },
    /// Wire type 1: eight bytes.
    Fixed64(&'a [u8]),
    /// Wire type 2: the bytes after the length, and the offset of the first of them.
    Bytes { from: usize, slice: &'a [u8] },
    /// Wire type 5: four bytes.
    Fixed32(&'a [u8]),
}

impl Body<'_> {
    ghost use Rattle.mvt_wire.specs.Field.{content_of, wire_type_of};

    /// The wire type: 0, 1, 2 or 5 (Protocol Buffers encoding, "Message Structure").
    pub fn wire_type(self) -> u8
        ensures { result ≡ wire_type_of (content_of self.entry) }
    {
        match self {
            Body::Varint { .. } => 0,
            Body::Fixed64(_) => 1,
            Body::Bytes { .. } => 2,
            Body::Fixed32(_) => 5,
        }
    }
}
