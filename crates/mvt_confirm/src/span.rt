//! Where the messages of a tile lie in its bytes (Mapbox Vector Tile Specification 2.1, section 4).
ghost use Rattle.std.specs.Prelude.{◌≡◌, ◌<◌, ◌≤◌, ◌^◌, length, Some, None, IfSome, IfNone};
ghost use Rattle.mvt_wire.specs.Field.{content_of};
ghost use Rattle.mvt_wire.specs.Payload.{Span, span_of};
ghost use Rattle.mvt_rules.specs.Scope.{IsPart, IsScope};
ghost use Rattle.mvt_wire.specs.declared.scope.Scope.TheVariants.{Layer};
ghost use Rattle.mvt_confirm.specs.Calls.ByteSpan.{as_span};

use crate::message_bytes::MessageBytes;
use mvt_wire::field_number::{FEATURES, LAYERS, VALUES};
use mvt_wire::{Body, Field, Fields, Scope};

/// A span of the bytes: the offset of its first byte, and the offset after its last.
#[derive(Clone, Copy)]
pub(crate) struct ByteSpan {
    pub(crate) from: usize,
    pub(crate) to: usize,
}

/// Where the message of a scope lies, or None where there is no such message: an ordinal is too
/// great, or a message round it isn't whole.
pub(crate) fn span_of_scope(bytes: &[u8], scope: &Scope) -> Option<ByteSpan>
    ensures there { IfSome result (λ span. IsScope bytes.now scope.now (as_span span)) }
    ensures forward { IfSome result (λ span. span.from ≤ span.to) }
    ensures within { IfSome result (λ span. span.to ≤ length bytes.now) }
    ensures none { IfNone result ((span : Span) → ¬ IsScope bytes.now scope.now span) }
{
    match *scope {
        Scope::Tile => Some(ByteSpan {
            from: 0,
            to: bytes.len(),
        }),
        Scope::Layer(layer) => layer_of(bytes, layer),
        Scope::Value(layer, value) => part_of_layer(bytes, layer, VALUES, value),
        Scope::Feature(layer, feature) => part_of_layer(bytes, layer, FEATURES, feature),
    }
}

/// Where a message of a layer lies: the payload with an ordinal, of the fields of a number in the
/// layer with an ordinal.
pub(crate) fn part_of_layer(
    bytes: &[u8],
    layer: usize,
    field_number: u32,
    ordinal: usize,
) -> Option<ByteSpan>
    ensures there { IfSome result (λ span. (outer : Span) × IsScope bytes.now (Layer layer) outer
        × IsPart bytes.now outer field_number ordinal (as_span span)) }
    ensures forward { IfSome result (λ span. span.from ≤ span.to) }
    ensures within { IfSome result (λ span. span.to ≤ length bytes.now) }
    ensures none { IfNone result ((span outer : Span) → IsScope bytes.now (Layer layer) outer
        → ¬ IsPart bytes.now outer field_number ordinal span) }
{
    let span = layer_of(bytes, layer)?;
    payload_of(&MessageBytes { bytes, span }, field_number, ordinal)
}

/// Where the layer with an ordinal lies.
fn layer_of(bytes: &[u8], layer: usize) -> Option<ByteSpan>
    ensures there { IfSome result (λ span. IsScope bytes.now (Layer layer) (as_span span)) }
    ensures forward { IfSome result (λ span. span.from ≤ span.to) }
    ensures within { IfSome result (λ span. span.to ≤ length bytes.now) }
    ensures none { IfNone result ((span : Span) → ¬ IsScope bytes.now (Layer layer) span) }
{
    let span = ByteSpan {
        from: 0,
        to: bytes.len(),
    };
    payload_of(&MessageBytes { bytes, span }, LAYERS, layer)
}

/// Where the payload with an ordinal lies, among those of wire type 2 of the fields of a number in
/// a message; or None where there are fewer, or the message isn't whole.
pub(crate) fn payload_of(
    outer: &MessageBytes<'_>,
    field_number: u32,
    ordinal: usize,
) -> Option<ByteSpan>
    ensures there { IfSome result (λ span.
        IsPart outer.now.bytes.now (as_span outer.now.span) field_number ordinal (as_span span)) }
    ensures forward { IfSome result (λ span. span.from ≤ span.to) }
    ensures within { IfSome result (λ span. span.to ≤ length outer.now.bytes.now) }
    ensures none { IfNone result ((span : Span)
        → ¬ IsPart outer.now.bytes.now (as_span outer.now.span) field_number ordinal span) }
{
    let mut fields = Fields::new(outer.bytes, outer.span.from, outer.span.to);
    let mut passed = 0;
    let mut found = None;
    'walk: while let Some(item) = fields.next_field() {
        let Ok(field) = item else {
            return None;
        };
        if let Some(span) = payload_in(&field, field_number) {
            if passed == ordinal {
                found = Some(span);
            }
            passed += 1;
        }
    }
    found
}

/// Where the payload of a field lies, if the field has the number and wire type 2.
pub(crate) fn payload_in(field: &Field<'_>, field_number: u32) -> Option<ByteSpan>
    requires { (span : Span) → span_of (content_of field.now.body) ≡ Some span → span.to < 2 ^ 64 }
    ensures number { IfSome result (λ _. field.now.number ≡ field_number) }
    ensures payload { IfSome result (λ span. span_of (content_of field.now.body)
        ≡ Some (as_span span)) }
    ensures none { IfNone result (field.now.number ≡ field_number
        → span_of (content_of field.now.body) ≡ None) }
{
    match field.body {
        Body::Bytes { from, slice } if field.number == field_number => Some(ByteSpan {
            from,
            to: from + slice.len(),
        }),
        _ => None,
    }
}
