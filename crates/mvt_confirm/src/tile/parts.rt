//! Whether the messages that a message embeds keep their schemas (Mapbox Vector Tile Specification
//! 2.1, sections 4 and 4.1).
ghost use Rattle.std.specs.Prelude.{◌≡◌, ◌↔◌, ◌≤◌, length, IsTrue, Some};
ghost use Rattle.mvt_wire.specs.Field.{entry_of};
ghost use Rattle.mvt_wire.specs.Payload.{Span, span_of};
ghost use Rattle.mvt_rules.specs.Scope.{whole_span};
ghost use Rattle.mvt_wire.specs.Calls.Scope.{Embeds};
ghost use Rattle.mvt_confirm.specs.Calls.ByteSpan.{as_span};
ghost use Rattle.mvt_confirm.specs.Calls.Walking.{HoldsMessage, HoldsParts, HoldsLayer};

use crate::message_bytes::MessageBytes;
use crate::span::payload_in;
use crate::tile::schema::keeps_schema;
use mvt_wire::field_number::{FEATURES, LAYERS, VALUES};
use mvt_wire::{Field, Fields, Message};

/// Whether the bytes are a whole message, and each layer in it keeps its schema, and so do the
/// layer's features and values.
pub(crate) fn layers_keep(bytes: &[u8]) -> bool
    ensures { IsTrue result
        ↔ HoldsParts bytes.now (whole_span bytes.now) LAYERS (HoldsLayer bytes.now) }
{
    let mut fields = Fields::new(bytes, 0, bytes.len());
    'walk: while let Some(item) = fields.next_field() {
        let Ok(field) = item else {
            return false;
        };
        if !is_layer_if_any(bytes, &field) {
            return false;
        }
    }
    true
}

/// Whether a field of a tile, where it is a layer, keeps its schema with all that is in it.
fn is_layer_if_any(bytes: &[u8], field: &Field<'_>) -> bool
    requires { (span : Span) → span_of (entry_of field.now).content ≡ Some span
        → (span.from ≤ span.to) × (span.to ≤ length bytes.now) }
    ensures { IsTrue result ↔ Embeds LAYERS (HoldsLayer bytes.now) (entry_of field.now) }
{
    match payload_in(field, LAYERS) {
        Some(span) => is_layer(&MessageBytes { bytes, span }),
        None => true,
    }
}

/// Whether the bytes there are a layer that keeps its schema, and so do its features and values.
fn is_layer(place: &MessageBytes<'_>) -> bool
    ensures { IsTrue result ↔ HoldsLayer place.now.bytes.now (as_span place.now.span) }
{
    keeps_schema(Message::Layer, place)
        && parts_keep(Message::Feature, FEATURES, place)
        && parts_keep(Message::Value, VALUES, place)
}

/// Whether the bytes there are a whole message, and each message in it of a field number keeps its
/// schema.
fn parts_keep(message: Message, number: u32, place: &MessageBytes<'_>) -> bool
    ensures { IsTrue result ↔ HoldsParts place.now.bytes.now (as_span place.now.span) number
        (HoldsMessage message place.now.bytes.now) }
{
    let mut fields = Fields::new(place.bytes, place.span.from, place.span.to);
    'walk: while let Some(item) = fields.next_field() {
        let Ok(field) = item else {
            return false;
        };
        if !keeps_if_any(message, number, place.bytes, &field) {
            return false;
        }
    }
    true
}

/// Whether a field, where it has the number and embeds a message, keeps that message's schema.
fn keeps_if_any(message: Message, number: u32, bytes: &[u8], field: &Field<'_>) -> bool
    requires { (span : Span) → span_of (entry_of field.now).content ≡ Some span
        → (span.from ≤ span.to) × (span.to ≤ length bytes.now) }
    ensures { IsTrue result ↔ Embeds number (HoldsMessage message bytes.now) (entry_of field.now) }
{
    match payload_in(field, number) {
        Some(span) => keeps_schema(message, &MessageBytes { bytes, span }),
        None => true,
    }
}
