//! A message in the bytes of a tile (Mapbox Vector Tile Specification 2.1, section 4).
ghost use Rattle.std.specs.Prelude.{◌≤◌, length};

use crate::span::ByteSpan;

/// The bytes of a tile, and the span of them that holds a message.
#[derive(Clone, Copy)]
pub(crate) struct MessageBytes<'a> {
    pub(crate) bytes: &'a [u8],
    pub(crate) span: ByteSpan,
    ghost forward: { span.from ≤ span.to },
    ghost within: { span.to ≤ length bytes.now },
}
