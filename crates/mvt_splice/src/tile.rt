//! A tile's bytes with changes to its features.
ghost use Rattle.std.specs.Prelude.{◌≡◌, Some, ◌∷◌, [], IfOk, OnOk};
ghost use Rattle.mvt_rules.specs.Tile.{TileRecord, IsTile};
ghost use Rattle.mvt_splice.specs.Splice.{Piece, fate_in, message_in, AreChangesInOrder, BecomesInTile, IsSpliced};
ghost use Rattle.mvt_splice.specs.Calls.Fates.{BeginFrom};
ghost use Rattle.mvt_splice.specs.Calls.Messages.{IsLayerMessage};
ghost use Rattle.mvt_splice.specs.Calls.Writing.{EncodesPiece, WritesFields};

use crate::change::Change;
use crate::fates::{changes_from, has_change_in};
use crate::layer::spliced_layer;
use crate::writing::add_delimited;
use mvt_wire::Fields;
use mvt_wire::field_number::LAYERS;
use mvt_wire::payload::bytes_in;
use std::alloc::{AllocError, Global};

/// The bytes of a tile with the changes made to its features. The changes are in order, as
/// `are_in_order` says; one about a feature that the tile doesn't have is passed over.
///
/// A new geometry is written as one packed field, in the place of the first that stated the old one.
/// The keys and lengths of that feature, and of each layer that a change names, are written anew, in
/// the shortest form. (The contract leaves the place and the form open.) All other fields, those that
/// the specification doesn't know among them, are copied byte for byte, in their order.
///
/// Time and memory are linear in the sizes of both. The only error is that memory was refused.
pub fn splice(alloc: Global, bytes: &[u8], changes: &[Change]) -> Result<Vec<u8>, AllocError>
    requires tile { (tile : TileRecord) × IsTile bytes.now tile }
    requires in_order { AreChangesInOrder changes.now }
    ensures spliced { IfOk result (λ out. IsSpliced changes.now bytes.now out.items) }
    ensures unchanged { IfOk result (λ out. changes.now ≡ [] → out.items ≡ bytes.now) }
{
    let mut out = Vec::new(alloc);
    let mut left = changes;
    let mut layer = 0;
    let mut fields = Fields::new(bytes, 0, bytes.len());
    'walk: while let Some(field) = fields.next_whole() {
        let encoding = &bytes[field.at..fields.at()];
        if field.number == LAYERS {
            left = changes_from(left, layer, 0);
            let message = bytes_in(field.body);
            add_layer(alloc, &mut out, encoding, message, left, layer)?;
            layer += 1;
        } else {
            out.extend_from_slice(encoding)?;
        }
    }
    Ok(out)
}

/// Writes what becomes of the layer with this ordinal, which has this message, and whose field is
/// encoded so. No change is about an earlier layer. The only error is that memory was refused.
fn add_layer(
    alloc: Global,
    out: &mut Vec<u8>,
    encoding: &[u8],
    message: &[u8],
    changes: &[Change],
    layer: usize,
) -> Result<(), AllocError>
    requires whole { IsLayerMessage message.now }
    requires in_order { AreChangesInOrder changes.now }
    requires begin { BeginFrom changes.now layer 0 }
    ensures { OnOk result ((piece : Piece) → EncodesPiece encoding.now piece
        → message_in 3 piece.field ≡ Some message.now → (after : Piece)
        × WritesFields (after ∷ []) out.old.items out.new.items
        × BecomesInTile (fate_in changes.now layer) (Some message.now) piece after) }
{
    if !has_change_in(changes, layer) {
        out.extend_from_slice(encoding)?;
        return Ok(());
    }
    let spliced = spliced_layer(alloc, message, changes, layer)?;
    add_delimited(out, LAYERS, &spliced)?;
    Ok(())
}
