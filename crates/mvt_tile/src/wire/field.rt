//! The faults of a field that its message knows.
ghost use Rattle.std.specs.Prelude.{◌≡◌, ℕ, ◌<◌, ◌^◌, Bool, true, List};
ghost use Rattle.mvt_wire.specs.Field.{IsField, entry_of, content_of, wire_type_of, cause_at};
ghost use Rattle.mvt_wire.specs.Schema.{is_own, is_singular};
ghost use Rattle.mvt_rules.specs.WireFault.{EntryFault};
ghost use Rattle.mvt_tile.specs.Calls.Least.{FindsLeastCause};

use mvt_wire::{Body, Field, FieldRule, Shape, WireCause, WireCode, is_text, packed_fault};

/// The first fault of a field by the rule for its number. `occurred` says whether a field of that
/// number comes before it.
#[inline(always)]
pub(crate) fn field_fault(rule: FieldRule, occurred: bool, field: &Field<'_>) -> Option<WireCause>
    requires { (bytes : List ℕ) × (next : ℕ) × IsField bytes next (entry_of field.now)
        × (next < 2 ^ 64) }
    ensures { FindsLeastCause (EntryFault rule occurred (entry_of field.now)) result }
{
    if !rule.shape.is_own(field.body.wire_type()) {
        return Some(at_key(field, WireCode::OtherType));
    }
    if occurred && rule.occurrence.is_singular() {
        return Some(at_key(field, WireCode::Again));
    }
    payload_fault(rule, field)
}

/// The first fault in the payload of a field of its own wire type that may occur here.
#[inline(always)]
fn payload_fault(rule: FieldRule, field: &Field<'_>) -> Option<WireCause>
    requires placed { (bytes : List ℕ) × (next : ℕ) × IsField bytes next (entry_of field.now)
        × (next < 2 ^ 64) }
    requires own { is_own rule.shape (wire_type_of (content_of field.now.body)) ≡ true }
    ensures { (occurred : Bool) → (is_singular rule.occurrence ≡ true → ¬ (occurred ≡ true))
        → FindsLeastCause (EntryFault rule occurred (entry_of field.now)) result }
{
    match field.body {
        Body::Varint { value, at } if rule.shape.is_out_of_range(value) => Some(WireCause {
            code: WireCode::OutOfRange,
            at,
            field: field.number,
        }),
        Body::Bytes { slice, .. } if rule.shape == Shape::Text && !is_text(slice) => {
            Some(at_key(field, WireCode::NotUtf8))
        }
        Body::Bytes { from, slice } if rule.shape == Shape::Numbers => {
            packed_fault(slice, from, field.number)
        }
        _ => None,
    }
}

/// The cause with a code at the key of a field.
fn at_key(field: &Field<'_>, code: WireCode) -> WireCause
    ensures { result ≡ cause_at code field.now.at field.now.number }
{
    WireCause {
        code,
        at: field.at,
        field: field.number,
    }
}
