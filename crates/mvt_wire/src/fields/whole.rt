//! The fields of a message that is known to be whole (Protocol Buffers encoding, "Message
//! Structure"). What is known by that is not tested again.
ghost use Rattle.std.specs.Prelude.{◌≡◌, ◌↔◌, ◌/◌, ◌<◌, ℕ, length, slice_index, IfNone, IfSome, IsSome};
ghost use Rattle.mvt_wire.specs.Field.{Content, Entry, FieldDefect, IsField, IsPayload, content_of, entry_of, wire_type_of};
ghost use Rattle.mvt_wire.specs.Walk.{IsOver, GivesField};
ghost use Rattle.mvt_wire.specs.declared.cause.WireCause.{WireCause};

use crate::field::{Body, Field};
use crate::fields::Fields;
use crate::varint::whole_varint;

impl<'a> Fields<'a> {
    /// The next field, which has no defect, or None at the message's end.
    #[inline(always)]
    pub fn next_whole(&mut self) -> Option<Field<'a>>
        requires { (cause : WireCause) → self.old.at < length self.old.bytes
            → ¬ FieldDefect self.old.bytes self.old.at cause }
        ensures over { IfNone result (IsOver self.old self.new) }
        ensures field { IfSome result (λ field. GivesField self.old self.new (entry_of field)) }
    {
        if self.at >= self.bytes.len() {
            return None;
        }
        let (field, next) = whole_field(self.bytes, self.at);
        self.at = next;
        Some(field)
    }

    /// The next field, or None at the message's end. Fields that begin with one of these keys have
    /// paths of their own, in which their number and wire type are constants.
    #[inline(always)]
    pub fn next_usual(&mut self, keys: [u8; 4]) -> Option<Field<'a>>
        requires whole { (cause : WireCause) → self.old.at < length self.old.bytes
            → ¬ FieldDefect self.old.bytes self.old.at cause }
        requires short { (place : ℕ) → slice_index keys place < 128 }
        ensures over { IfNone result (IsOver self.old self.new) }
        ensures field { IfSome result (λ field. GivesField self.old self.new (entry_of field)) }
    {
        if let Some(field) = self.next_of(keys[0]) {
            return Some(field);
        }
        if let Some(field) = self.next_of(keys[1]) {
            return Some(field);
        }
        if let Some(field) = self.next_of(keys[2]) {
            return Some(field);
        }
        if let Some(field) = self.next_of(keys[3]) {
            return Some(field);
        }
        self.next_whole()
    }

    /// The next field where it begins with this key, which has one byte: eight times the field's
    /// number, and the wire type. None where it doesn't, and then nothing is passed.
    #[inline(always)]
    pub fn next_of(&mut self, key: u8) -> Option<Field<'a>>
        requires whole { (cause : WireCause) → self.old.at < length self.old.bytes
            → ¬ FieldDefect self.old.bytes self.old.at cause }
        requires short { key < 128 }
        ensures begins { IsSome result ↔ (self.old.at < length self.old.bytes)
            × (slice_index self.old.bytes self.old.at ≡ key) }
        ensures unchanged { IfNone result (self.new ≡ self.old) }
        ensures field { IfSome result (λ field. GivesField self.old self.new (entry_of field)) }
        ensures number { IfSome result (λ field. field.number ≡ key / 8) }
    {
        if self.at >= self.bytes.len() || self.bytes[self.at] != key {
            return None;
        }
        let at = self.at;
        let (body, next) = whole_body(self.bytes, at + 1, u64::from(key % 8));
        self.at = next;
        let number = u32::from(key / 8);
        Some(Field { number, at, body })
    }
}

/// The field that stands at an offset, and the offset after it.
#[inline(always)]
fn whole_field(bytes: &[u8], at: usize) -> (Field<'_>, usize)
    requires { (entry : Entry) × (next : ℕ) × (entry.at ≡ at) × IsField bytes.now next entry }
    ensures { GivesField (record { bytes = bytes.now; at = at })
        (record { bytes = bytes.now; at = result.1 }) (entry_of result.0) }
{
    let (key, from) = whole_varint(bytes, at);
    let (body, next) = whole_body(bytes, from, key % 8);
    let number = (key / 8) as u32;
    (Field { number, at, body }, next)
}

/// The payload of a wire type that stands at an offset, and the offset after it.
#[inline(always)]
fn whole_body(bytes: &[u8], from: usize, wire_type: u64) -> (Body<'_>, usize)
    requires { (content : Content) × (next : ℕ) × (wire_type_of content ≡ wire_type)
        × IsPayload bytes.now from next content }
    ensures wire_type { wire_type_of (content_of result.0) ≡ wire_type }
    ensures payload { IsPayload bytes.now from result.1 (content_of result.0) }
{
    match wire_type {
        0 => {
            let (value, next) = whole_varint(bytes, from);
            (Body::Varint { value, at: from }, next)
        }
        1 => (Body::Fixed64(&bytes[from..from + 8]), from + 8),
        2 => {
            let (size, start) = whole_varint(bytes, from);
            let next = start + size as usize;
            let slice = &bytes[start..next];
            (Body::Bytes { from: start, slice }, next)
        }
        5 => (Body::Fixed32(&bytes[from..from + 4]), from + 4),
        _ => unreachable!(),
    }
}
