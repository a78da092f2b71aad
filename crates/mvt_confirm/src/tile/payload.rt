//! Whether payloads fit the rule for their field's number (Mapbox Vector Tile Specification 2.1,
//! section 4).
ghost use Rattle.std.specs.Prelude.{◌≡◌, ◌↔◌, ◌<◌, ◌≤◌, length, IsTrue, IsUtf8, IfSome, IfNone};
ghost use Rattle.mvt_wire.specs.Field.{content_of};
ghost use Rattle.mvt_rules.specs.Tile.{Fits};
ghost use Rattle.mvt_wire.specs.declared.schema.Shape.TheVariants as shapes;
ghost use Rattle.mvt_confirm.specs.Calls.Walking.{AreSmallFrom, IsContentInRange};

use mvt_wire::{Body, FieldRule, Shape, read_varint, text};

/// Whether a payload has an own wire type, is UTF-8 where it is a text, and states only numbers in
/// range.
pub(crate) fn fits(rule: FieldRule, body: Body<'_>) -> bool
    ensures { IsTrue result ↔ Fits rule (content_of body.entry) }
{
    rule.shape.is_own(body.wire_type()) && is_in_range(rule.shape, body)
}

/// Whether what a payload of an own wire type says is in range.
fn is_in_range(shape: Shape, body: Body<'_>) -> bool
    ensures { IsTrue result ↔ IsContentInRange shape (content_of body.entry) }
{
    match body {
        Body::Varint { value, .. } => !shape.is_out_of_range(value),
        Body::Bytes { slice, .. } => bytes_fit(shape, slice),
        Body::Fixed64(_) | Body::Fixed32(_) => true,
    }
}

/// Whether the bytes after a length are what the shape requires: a text is UTF-8, and a packed list
/// has numbers of 32 bits.
fn bytes_fit(shape: Shape, slice: &[u8]) -> bool
    ensures { IsTrue result ↔ ((shape ≡ shapes.Text → IsUtf8 slice.now) × (shape ≡ shapes.Numbers
        → AreSmallFrom slice.now 0)) }
{
    match shape {
        Shape::Text => text(slice).is_some(),
        Shape::Numbers => are_small(slice),
        _ => true,
    }
}

/// Whether the bytes are a packed list of numbers from 0 to 2^32 - 1 (Protocol Buffers encoding,
/// "Packed Repeated Fields").
fn are_small(part: &[u8]) -> bool
    ensures { IsTrue result ↔ AreSmallFrom part.now 0 }
{
    let mut at = 0;
    'walk: while at < part.len() {
        match after_small(part, at) {
            Some(next) => at = next,
            None => return false,
        }
    }
    true
}

/// The offset after the number of 32 bits at an offset, or None where none is there.
fn after_small(part: &[u8], at: usize) -> Option<usize>
    requires { at < length part.now }
    ensures further { IfSome result (λ next. at < next) }
    ensures within { IfSome result (λ next. next ≤ length part.now) }
    ensures same { IfSome result (λ next. AreSmallFrom part.now next ↔ AreSmallFrom part.now at) }
    ensures none { IfNone result (¬ AreSmallFrom part.now at) }
{
    match read_varint(part, at) {
        Ok((number, next)) if number < 1 << 32 => Some(next),
        _ => None,
    }
}
