//! Whether a message keeps one rule of its schema.
ghost use Rattle.std.specs.Prelude.{◌≡◌, ◌↔◌, List, ◌∷◌, true, false, IsTrue, IfSome, IfNone};
ghost use Rattle.mvt_wire.specs.Field.{Entry, entry_of, content_of};
ghost use Rattle.mvt_wire.specs.Schema.{is_singular, is_required};
ghost use Rattle.mvt_rules.specs.Tile.{Fits};
ghost use Rattle.mvt_confirm.specs.Calls.MessageBytes.{IsMessageWith};
ghost use Rattle.mvt_confirm.specs.Calls.Walking.{KeepsRule, KeepsRuleAfter};

use crate::message_bytes::MessageBytes;
use crate::tile::payload::fits;
use mvt_wire::{Field, FieldRule, Fields};

/// Whether the bytes there are a whole message whose fields of the rule's number fit it and occur
/// as often as allowed. The message is walked once.
pub(crate) fn keeps_rule(rule: FieldRule, place: &MessageBytes<'_>) -> bool
    ensures { IsTrue result ↔ IsMessageWith place.now (KeepsRule rule) }
{
    let mut fields = Fields::new(place.bytes, place.span.from, place.span.to);
    let mut occurred = false;
    'walk: while let Some(item) = fields.next_field() {
        let Ok(field) = item else {
            return false;
        };
        let Some(occurs) = pass(rule, occurred, &field) else {
            return false;
        };
        occurred = occurs;
    }
    is_enough(rule, occurred)
}

/// Whether a message may end, where fields of the rule's number occurred in it or not.
fn is_enough(rule: FieldRule, occurred: bool) -> bool
    ensures { IsTrue result ↔ (is_required rule.occurrence ≡ true → occurred ≡ true) }
{
    occurred || !rule.occurrence.is_required()
}

/// Whether a field of the rule's number has occurred once the next field is passed, or None where
/// that field breaks the rule.
fn pass(rule: FieldRule, occurred: bool, field: &Field<'_>) -> Option<bool>
    ensures kept { IfSome result (λ occurs. (rest : List Entry)
        → KeepsRuleAfter rule occurs rest
        ↔ KeepsRuleAfter rule occurred (entry_of field.now ∷ rest)) }
    ensures broken { IfNone result ((rest : List Entry)
        → ¬ KeepsRuleAfter rule occurred (entry_of field.now ∷ rest)) }
{
    if field.number != rule.number {
        return Some(occurred);
    }
    if may_occur(rule, occurred, field) {
        Some(true)
    } else {
        None
    }
}

/// Whether a field of the rule's number fits the rule, and is the first where only one may occur.
fn may_occur(rule: FieldRule, occurred: bool, field: &Field<'_>) -> bool
    ensures { IsTrue result ↔ (Fits rule (content_of field.now.body)
        × (is_singular rule.occurrence ≡ true → occurred ≡ false)) }
{
    !(occurred && rule.occurrence.is_singular()) && fits(rule, field.body)
}
