//! Whether a message keeps its schema (Mapbox Vector Tile Specification 2.1, section 4).
ghost use Rattle.std.specs.Prelude.{◌≡◌, ◌↔◌, List, ◌∷◌, All, IsTrue, IfSome, IfNone};
ghost use Rattle.mvt_wire.specs.Field.{Entry, entry_of};
ghost use Rattle.mvt_wire.specs.Schema.{rules_of};
ghost use Rattle.mvt_rules.specs.Tile.{KeepsSchema};
ghost use Rattle.mvt_rules.specs.WireFault.{count_known};
ghost use Rattle.mvt_wire.specs.declared.schema.Message.TheVariants as messages;
ghost use Rattle.mvt_confirm.specs.Calls.MessageBytes.{IsMessageWith};
ghost use Rattle.mvt_confirm.specs.Calls.Walking.{KeepsRule, HasOneKnownAfter};

use crate::message_bytes::MessageBytes;
use crate::tile::rule::keeps_rule;
use mvt_wire::{Field, Fields, Message};

/// Whether the bytes there are a whole message that keeps its schema. The messages in it aren't
/// looked into.
pub(crate) fn keeps_schema(message: Message, place: &MessageBytes<'_>) -> bool
    ensures { IsTrue result ↔ IsMessageWith place.now (KeepsSchema message) }
{
    keeps_rules(message, place) && is_one_if_value(message, place)
}

/// Whether the bytes, where they are to be a value, are a whole message that has just one of the
/// fields that a value knows (section 4.4).
fn is_one_if_value(message: Message, place: &MessageBytes<'_>) -> bool
    ensures { IsTrue result ↔ (message ≡ messages.Value
        → IsMessageWith place.now (λ entries. count_known messages.Value entries ≡ 1)) }
{
    message != Message::Value || has_one_known(place)
}

/// Whether the message keeps each rule of its schema.
fn keeps_rules(message: Message, place: &MessageBytes<'_>) -> bool
    ensures { IsTrue result ↔ All (λ rule. IsMessageWith place.now (KeepsRule rule)) (rules_of message) }
{
    for &rule in message.rules() {
        if !keeps_rule(rule, place) {
            return false;
        }
    }
    true
}

/// Whether a whole message has just one of the fields that a value knows (section 4.4).
fn has_one_known(place: &MessageBytes<'_>) -> bool
    ensures { IsTrue result ↔ IsMessageWith place.now (λ entries. count_known messages.Value entries ≡ 1) }
{
    let mut fields = Fields::new(place.bytes, place.span.from, place.span.to);
    let mut known = false;
    'walk: while let Some(item) = fields.next_field() {
        let Ok(field) = item else {
            return false;
        };
        let Some(occurred) = pass(known, &field) else {
            return false;
        };
        known = occurred;
    }
    known
}

/// Whether a known field has occurred once the next field is passed, or None where that is the
/// second.
fn pass(known: bool, field: &Field<'_>) -> Option<bool>
    ensures kept { IfSome result (λ occurred. (rest : List Entry)
        → HasOneKnownAfter occurred rest ↔ HasOneKnownAfter known (entry_of field.now ∷ rest)) }
    ensures broken { IfNone result ((rest : List Entry)
        → ¬ HasOneKnownAfter known (entry_of field.now ∷ rest)) }
{
    if Message::Value.rule(field.number).is_none() {
        return Some(known);
    }
    if known { None } else { Some(true) }
}
