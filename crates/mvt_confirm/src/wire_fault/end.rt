//! The faults of a whole message at its end.
ghost use Rattle.std.specs.Prelude.{◌≡◌, ◌↔◌, List, true, Some, IfNone, IfSome, IsTrue};
ghost use Rattle.mvt_wire.specs.Field.{Entry};
ghost use Rattle.mvt_wire.specs.Schema.{rule_of, is_required};
ghost use Rattle.mvt_rules.specs.WireFault.{EndFault, count_known};
ghost use Rattle.mvt_wire.specs.Payload.{count_of};
ghost use Rattle.mvt_wire.specs.declared.schema.FieldRule.{FieldRule};
ghost use Rattle.mvt_confirm.specs.Calls.MessageBytes.{HasFields};

use crate::message_bytes::MessageBytes;
use mvt_wire::{Fields, Message, WireCause, WireCode};

/// How many fields of a whole message have a number, and how many have numbers that it knows.
#[derive(Clone, Copy)]
struct FieldCounts {
    of_number: usize,
    known: usize,
}

/// Whether the message in a span has a fault at its end, with code 108 or 109; the message has
/// to be whole.
pub(crate) fn has_end_fault(place: &MessageBytes<'_>, message: Message, cause: WireCause) -> bool
    ensures { IsTrue result ↔ ((entries : List Entry) × HasFields place.now entries
        × EndFault message entries place.now.span.to cause) }
{
    match count_fields(place, message, cause.field) {
        Some(counts) => cause.at == place.span.to && is_fault_of(message, counts, cause),
        None => false,
    }
}

/// The counts of a message's fields, or None where the message isn't whole.
fn count_fields(
    place: &MessageBytes<'_>,
    message: Message,
    field_number: u32,
) -> Option<FieldCounts>
    ensures counts { IfSome result (λ counts. (entries : List Entry)
        × HasFields place.now entries
        × (counts.of_number ≡ count_of field_number entries)
        × (counts.known ≡ count_known message entries)) }
    ensures none { IfNone result ((entries : List Entry)
        → ¬ HasFields place.now entries) }
{
    let mut fields = Fields::new(place.bytes, place.span.from, place.span.to);
    let mut counts = FieldCounts {
        of_number: 0,
        known: 0,
    };
    'walk: while let Some(item) = fields.next_field() {
        let Ok(field) = item else {
            return None;
        };
        if field.number == field_number {
            counts.of_number += 1;
        }
        if message.rule(field.number).is_some() {
            counts.known += 1;
        }
    }
    Some(counts)
}

/// Whether a message of so many fields has this fault at its end, as its code and number say.
fn is_fault_of(message: Message, counts: FieldCounts, cause: WireCause) -> bool
    ensures { (entries : List Entry) → counts.of_number ≡ count_of cause.field entries
        → counts.known ≡ count_known message entries →
        IsTrue result ↔ EndFault message entries cause.at cause }
{
    match cause.code {
        WireCode::Missing => counts.of_number == 0 && is_required(message, cause.field),
        WireCode::OneField => cause.field == 0 && message == Message::Value && counts.known != 1,
        _ => false,
    }
}

/// Whether a message requires a field of a number.
fn is_required(message: Message, field_number: u32) -> bool
    ensures { IsTrue result ↔ ((rule : FieldRule) × (rule_of message field_number ≡ Some rule)
        × (is_required rule.occurrence ≡ true)) }
{
    match message.rule(field_number) {
        Some(rule) => rule.occurrence.is_required(),
        None => false,
    }
}
