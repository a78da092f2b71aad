//! The faults of a field of a whole message, by the rule for its number.
ghost use Rattle.std.specs.Prelude.{◌≡◌, ◌↔◌, ℕ, List, true, false, IsTrue, IsUtf8};
ghost use Rattle.mvt_wire.specs.Field.{Entry, varint, delimited, content_of, entry_of, wire_type_of, cause_at};
ghost use Rattle.mvt_wire.specs.Number.{PackedFault};
ghost use Rattle.mvt_wire.specs.Schema.{is_own, is_out_of_range, is_singular};
ghost use Rattle.mvt_rules.specs.WireFault.{EntryFault, FieldFault};
ghost use Rattle.mvt_wire.specs.declared.cause.WireCode.TheVariants.{OtherType, Again, NotUtf8, OutOfRange};
ghost use Rattle.mvt_wire.specs.declared.schema.Shape.TheVariants.{Text, Numbers};
ghost use Rattle.mvt_confirm.specs.Calls.MessageBytes.{HasFields};

use super::packed::has_packed_fault;
use crate::message_bytes::MessageBytes;
use mvt_wire::{Body, Field, FieldRule, Fields, Message, Shape, WireCause, WireCode, text};

/// Whether a field of the message in a span has a fault, with code 101, 102, 106, 107, 110 or
/// 111; the message has to be whole. Payloads of other fields than the fault's aren't looked into.
pub(crate) fn has_field_fault(place: &MessageBytes<'_>, message: Message, cause: WireCause) -> bool
    ensures { IsTrue result ↔ ((entries : List Entry) × HasFields place.now entries
        × FieldFault message entries cause) }
{
    let Some(rule) = message.rule(cause.field) else {
        return false;
    };
    let mut fields = Fields::new(place.bytes, place.span.from, place.span.to);
    let mut occurred = false;
    let mut found = false;
    'walk: while let Some(item) = fields.next_field() {
        let Ok(field) = item else {
            return false;
        };
        if field.number == cause.field {
            found = found || is_fault_of(rule, occurred, &field, cause);
            occurred = true;
        }
    }
    found
}

/// Whether a field has this fault by the rule for its number. `occurred` says whether a field of
/// that number comes before it.
fn is_fault_of(rule: FieldRule, occurred: bool, field: &Field<'_>, cause: WireCause) -> bool
    ensures { IsTrue result ↔ EntryFault rule occurred (entry_of field.now) cause }
{
    is_other_type(rule, field, cause)
        || is_again(rule, occurred, field, cause)
        || is_no_text(rule, field, cause)
        || is_out_of_range(rule, field, cause)
        || is_in_packed_list(rule, field, cause)
}

/// Whether it is code 106: another wire type than the field's own.
fn is_other_type(rule: FieldRule, field: &Field<'_>, cause: WireCause) -> bool
    ensures { IsTrue result ↔ (is_own rule.shape (wire_type_of (content_of field.now.body)) ≡ false)
        × (cause ≡ cause_at OtherType field.now.at field.now.number) }
{
    cause == at_key(field, WireCode::OtherType) && !rule.shape.is_own(field.body.wire_type())
}

/// Whether it is code 107: a further field of a number that may occur once.
fn is_again(rule: FieldRule, occurred: bool, field: &Field<'_>, cause: WireCause) -> bool
    ensures { IsTrue result ↔ (is_singular rule.occurrence ≡ true) × (occurred ≡ true)
        × (cause ≡ cause_at Again field.now.at field.now.number) }
{
    cause == at_key(field, WireCode::Again) && occurred && rule.occurrence.is_singular()
}

/// Whether it is code 110: a text that isn't UTF-8.
fn is_no_text(rule: FieldRule, field: &Field<'_>, cause: WireCause) -> bool
    ensures { IsTrue result ↔ (from : ℕ) × (part : List ℕ) × (rule.shape ≡ Text)
        × (content_of field.now.body ≡ delimited from part)
        × (¬ IsUtf8 part) × (cause ≡ cause_at NotUtf8 field.now.at field.now.number) }
{
    match field.body {
        Body::Bytes { slice, .. } if rule.shape == Shape::Text => {
            cause == at_key(field, WireCode::NotUtf8) && !is_utf8(slice)
        }
        _ => false,
    }
}

/// Whether the bytes are UTF-8.
fn is_utf8(part: &[u8]) -> bool
    ensures { IsTrue result ↔ IsUtf8 part.now }
{
    text(part).is_some()
}

/// Whether it is code 111 of a single number: it is out of its range.
fn is_out_of_range(rule: FieldRule, field: &Field<'_>, cause: WireCause) -> bool
    ensures { IsTrue result ↔ (value at : ℕ) × (content_of field.now.body ≡ varint value at)
        × (is_out_of_range rule.shape value ≡ true)
        × (cause ≡ cause_at OutOfRange at field.now.number) }
{
    match field.body {
        Body::Varint { value, at } => {
            let out_of_range = WireCause {
                code: WireCode::OutOfRange,
                at,
                field: field.number,
            };
            cause == out_of_range && rule.shape.is_out_of_range(value)
        }
        _ => false,
    }
}

/// Whether it is a fault in the field's packed list, with code 101, 102 or 111.
fn is_in_packed_list(rule: FieldRule, field: &Field<'_>, cause: WireCause) -> bool
    ensures { IsTrue result ↔ (from : ℕ) × (part : List ℕ) × (rule.shape ≡ Numbers)
        × (content_of field.now.body ≡ delimited from part)
        × PackedFault from part field.now.number cause }
{
    match field.body {
        Body::Bytes { from, slice } if rule.shape == Shape::Numbers => {
            has_packed_fault(slice, from, field.number, cause)
        }
        _ => false,
    }
}

/// The cause with a code at the key of a field.
fn at_key(field: &Field<'_>, code: WireCode) -> WireCause
    ensures { result ≡ cause_at code field.now.at field.now.number }
{
    WireCause {
        code,
        at: field.at,
        field: field.number,
    }
}
