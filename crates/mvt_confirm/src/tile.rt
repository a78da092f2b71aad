//! Whether bytes are a tile (Mapbox Vector Tile Specification 2.1, section 4). Each message is
//! walked once for each field that it knows, and once for each kind of message in it.
ghost use Rattle.std.specs.Prelude.{◌↔◌, IsTrue};
ghost use Rattle.mvt_rules.specs.Tile.{TileRecord, IsTile};

mod parts;
mod payload;
mod rule;
mod schema;

use crate::message_bytes::MessageBytes;
use crate::span::ByteSpan;
use crate::tile::parts::layers_keep;
use crate::tile::schema::keeps_schema;
use mvt_wire::Message;

/// Whether the bytes are a tile: it and each message in it are whole and keep their schemas.
pub(crate) fn is_tile(bytes: &[u8]) -> bool
    ensures { IsTrue result ↔ ((tile : TileRecord) × IsTile bytes.now tile) }
{
    let span = ByteSpan {
        from: 0,
        to: bytes.len(),
    };
    keeps_schema(Message::Tile, &MessageBytes { bytes, span }) && layers_keep(bytes)
}
