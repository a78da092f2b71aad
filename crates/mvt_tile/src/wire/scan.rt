//! The faults of a message's own fields, as one walk over them finds them.
ghost use Rattle.std.specs.Prelude.{◌≡◌, ℕ, ◌<◌, ◌≤◌, ◌^◌, List, [], ◌∷◌, ◌++◌, IfNone, IfSome, Some, ◌&&◌, not};
ghost use Rattle.mvt_wire.specs.Field.{Entry, IsField, entry_of};
ghost use Rattle.mvt_wire.specs.Schema.{is_required, rule_of};
ghost use Rattle.mvt_rules.specs.WireFault.{EndFault};
ghost use Rattle.mvt_tile.specs.Calls.Least.{FindsLeastCause};

use crate::wire::field::field_fault;
use mvt_wire::{Field, FieldRule, Message, WireCause, WireCode};

/// What is kept of the fields of a message that were passed, none of which has a fault: no more
/// than the message's rules need.
#[derive(Drop)]
pub(crate) struct FieldScan {
    /// Which of the numbers that the message knows have occurred. They are all below 16.
    occurred: [bool; 16],
    /// Of a value, whether one of these numbers has occurred.
    known: bool,
    /// Of a value, whether more than one field of these numbers has occurred.
    several: bool,
}

impl FieldScan {
    ghost use Rattle.mvt_tile.specs.Calls.FieldScan.{HasKept, HasScanned, IsFirstFieldFault, IsMissing, PassesKnown, was_seen};

    /// No field was passed. (Inlined, so that where the fields come in a known order, what has occurred
    /// is known when this is compiled.)
    #[inline(always)]
    pub(crate) fn new() -> Self
        ensures { (message : Message) → HasScanned message result [] }
    {
        FieldScan {
            occurred: [false; 16],
            known: false,
            several: false,
        }
    }

    /// Passes the next field, or returns its first fault.
    #[inline(always)]
    pub(crate) fn pass(&mut self, message: Message, field: &Field<'_>) -> Option<WireCause>
        requires { (bytes : List ℕ) × (next : ℕ) × IsField bytes next (entry_of field.now)
            × (next < 2 ^ 64) }
        ensures passed { IfNone result ((entries : List Entry)
            → HasScanned message self.old entries
            → HasScanned message self.new (entries ++ entry_of field.now ∷ [])) }
        ensures fault { IfSome result (λ cause. (bytes : List ℕ) (entries : List Entry) (next : ℕ)
            → IsField bytes next (entry_of field.now)
            → HasScanned message self.old entries
            → IsFirstFieldFault message (entries ++ entry_of field.now ∷ []) next cause) }
        ensures unchanged { IfSome result (λ cause. self.new ≡ self.old) }
    {
        match message.rule(field.number) {
            None => None,
            Some(rule) => self.pass_known(message, rule, field),
        }
    }

    /// The same for a field of a number that the message knows by a rule.
    #[inline(always)]
    fn pass_known(
        &mut self,
        message: Message,
        rule: FieldRule,
        field: &Field<'_>,
    ) -> Option<WireCause>
        requires known { rule_of message field.now.number ≡ Some rule }
        requires placed { (bytes : List ℕ) × (next : ℕ) × IsField bytes next (entry_of field.now)
            × (next < 2 ^ 64) }
        ensures { PassesKnown message rule (entry_of field.now) self.old self.new result }
    {
        let number = field.number as usize;
        match field_fault(rule, self.occurred[number], field) {
            None => {
                self.keep(message, number);
                None
            }
            Some(cause) => Some(cause),
        }
    }

    /// Keeps that a number has occurred.
    #[inline(always)]
    fn keep(&mut self, message: Message, number: usize)
        requires { number < 16 }
        ensures { HasKept message self.old self.new number }
    {
        self.occurred[number] = true;
        if message == Message::Value {
            self.several = self.known;
            self.known = true;
        }
    }

    /// What is wrong with the message at its end, all fields of which were passed.
    #[inline(always)]
    pub(crate) fn end_fault(&self, message: Message, end: usize) -> Option<WireCause>
        ensures { (entries : List Entry) → HasScanned message self.now entries
            → FindsLeastCause (EndFault message entries end) result }
    {
        if let Some(number) = self.first_missing(message) {
            return Some(WireCause {
                code: WireCode::Missing,
                at: end,
                field: number,
            });
        }
        if message == Message::Value && !self.has_one() {
            return Some(WireCause {
                code: WireCode::OneField,
                at: end,
                field: 0,
            });
        }
        None
    }

    /// The least required field number that is missing.
    #[inline(always)]
    fn first_missing(&self, message: Message) -> Option<u32>
        ensures none { IfNone result ((number : ℕ) → ¬ IsMissing message self.now number) }
        ensures missing { IfSome result (IsMissing message self.now) }
        ensures least { IfSome result (λ least. (number : ℕ) → IsMissing message self.now number
            → least ≤ number) }
    {
        for &rule in message.rules() {
            if self.lacks(rule) {
                return Some(rule.number);
            }
        }
        None
    }

    /// Whether a rule requires a number that has not occurred.
    #[inline(always)]
    fn lacks(&self, rule: FieldRule) -> bool
        requires { rule.number < 16 }
        ensures { result ≡ (is_required rule.occurrence && not (was_seen self.now rule.number)) }
    {
        rule.occurrence.is_required() && !self.occurred[rule.number as usize]
    }

    /// Whether just one field of the numbers that a value knows has occurred.
    fn has_one(&self) -> bool
        ensures { result ≡ (self.now.known && not self.now.several) }
    {
        self.known && !self.several
    }
}
