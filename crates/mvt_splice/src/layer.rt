//! A layer's message with changes to its features.
ghost use Rattle.std.specs.Prelude.{List, IfOk, OnOk};
ghost use Rattle.mvt_splice.specs.Splice.{Piece, fate_in, AreChangesInOrder, Becomes, IsSplicedLayer};
ghost use Rattle.mvt_splice.specs.Calls.Fates.{BeginFrom};
ghost use Rattle.mvt_splice.specs.Calls.Messages.{IsFeatureMessage, IsLayerMessage};
ghost use Rattle.mvt_splice.specs.Calls.Writing.{EncodesPiece, WritesFields};

use crate::change::Change;
use crate::fates::{change_of, changes_from};
use crate::geometry::redrawn;
use crate::writing::add_delimited;
use mvt_wire::Fields;
use mvt_wire::field_number::FEATURES;
use mvt_wire::payload::bytes_in;
use std::alloc::{AllocError, Global};

/// The message of the layer with this ordinal, with the changes made to its features. The only error
/// is that memory was refused.
pub(crate) fn spliced_layer(
    alloc: Global,
    message: &[u8],
    changes: &[Change],
    layer: usize,
) -> Result<Vec<u8>, AllocError>
    requires whole { IsLayerMessage message.now }
    requires in_order { AreChangesInOrder changes.now }
    ensures { IfOk result (λ out.
        IsSplicedLayer (fate_in changes.now layer) message.now out.items) }
{
    let mut out = Vec::new(alloc);
    let mut left = changes;
    let mut feature = 0;
    let mut fields = Fields::new(message, 0, message.len());
    'walk: while let Some(field) = fields.next_whole() {
        let encoding = &message[field.at..fields.at()];
        if field.number == FEATURES {
            left = changes_from(left, layer, feature);
            let feature_message = bytes_in(field.body);
            add_feature(
                alloc,
                &mut out,
                encoding,
                feature_message,
                left,
                layer,
                feature,
            )?;
            feature += 1;
        } else {
            out.extend_from_slice(encoding)?;
        }
    }
    Ok(out)
}

/// Writes what becomes of the feature with these ordinals, which has this message, and whose field
/// is encoded so. No change is about an earlier feature. The only error is that memory was refused.
fn add_feature(
    alloc: Global,
    out: &mut Vec<u8>,
    encoding: &[u8],
    message: &[u8],
    changes: &[Change],
    layer: usize,
    feature: usize,
) -> Result<(), AllocError>
    requires whole { IsFeatureMessage message.now }
    requires in_order { AreChangesInOrder changes.now }
    requires begin { BeginFrom changes.now layer feature }
    ensures { OnOk result ((piece : Piece) → EncodesPiece encoding.now piece → (after : List Piece)
        × WritesFields after out.old.items out.new.items
        × Becomes (fate_in changes.now layer feature) message.now piece after) }
{
    let Some(change) = change_of(changes, layer, feature) else {
        out.extend_from_slice(encoding)?;
        return Ok(());
    };
    let Some(numbers) = &change.geometry else {
        return Ok(());
    };
    let drawn = redrawn(alloc, message, numbers)?;
    add_delimited(out, FEATURES, &drawn)?;
    Ok(())
}
