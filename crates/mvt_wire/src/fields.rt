ghost use Rattle.std.specs.Prelude.{◌≡◌, ◌+◌, ◌<◌, ◌≤◌, length, take, IfSome, IfNone, IfOk, IfErr};
ghost use Rattle.mvt_wire.specs.Field.{IsField, IsPayload, FieldDefect, HasLeadingVarint, PayloadEnd, content_of, entry_of, wire_type_of};
ghost use Rattle.mvt_wire.specs.Calls.Key.{IsKeyOf, wire_type_number};
ghost use Rattle.mvt_wire.specs.Varint.{EncodesVarint};
ghost use Rattle.mvt_wire.specs.Walk.{Walk, IsOver, GivesField, FindsDefect, IsDefectOr};

use crate::cause::{WireCause, WireCode};
use crate::field::{Body, Field};
use crate::key::{Key, WireType, read_key};
use crate::varint::read_varint;
use std::marker::Model;

pub(crate) mod short_keys;
pub(crate) mod whole;

/// A cursor over the fields of one message, in their order in it.
#[derive(Drop)]
pub struct Fields<'a> {
    bytes: &'a [u8],
    at: usize,
}

impl<'a> Model for Fields<'a> {
    ghost Value = { Walk };

    ghost view = { λ fields. record { bytes = fields.bytes.now; at = fields.at } };

    ghost invariant = { λ fields. fields.at ≤ length fields.bytes.now };
}

impl<'a> Fields<'a> {
    /// The fields of the message that the bytes hold from one offset up to another. Offsets
    /// in what comes out are places in all the bytes.
    pub fn new(bytes: &'a [u8], from: usize, to: usize) -> Self
        requires forward { from ≤ to }
        requires within { to ≤ length bytes.now }
        ensures { result ≡ record { bytes = take to bytes.entry.now; at = from } }
    {
        Fields {
            bytes: &bytes[..to],
            at: from,
        }
    }

    /// The offset after the fields that were given.
    #[inline(always)]
    pub fn at(&self) -> usize
        ensures { result ≡ self.now.at }
    {
        self.at
    }

    /// The next field, or None at the message's end (Protocol Buffers encoding, "Message
    /// Structure").
    ///
    /// Errors: the one defect of the field at this place, with code 101 to 105; from then on None.
    #[inline(always)]
    pub fn next_field(&mut self) -> Option<Result<Field<'a>, WireCause>>
        ensures over { IfNone result (IsOver self.old self.new) }
        ensures field { IfSome result (λ item.
            IfOk item (λ field. GivesField self.old self.new (entry_of field))) }
        ensures defect { IfSome result (λ item.
            IfErr item (λ cause. FindsDefect self.old self.new cause)) }
    {
        if self.at >= self.bytes.len() {
            return None;
        }
        match read_field(self.bytes, self.at) {
            Ok((field, next)) => {
                self.at = next;
                Some(Ok(field))
            }
            Err(cause) => {
                self.at = self.bytes.len();
                Some(Err(cause))
            }
        }
    }
}

/// The defect of a field that is left, or else the cause: a message that isn't whole has no other
/// fault than its defect.
#[cold]
#[inline(never)]
pub fn defect_or(mut fields: Fields<'_>, cause: WireCause) -> WireCause
    ensures { IsDefectOr fields.entry cause result }
{
    'walk: while let Some(item) = fields.next_field() {
        if let Err(defect) = item {
            return defect;
        }
    }
    cause
}

/// The field at an offset, and the offset after it.
#[inline(always)]
pub(crate) fn read_field(bytes: &[u8], at: usize) -> Result<(Field<'_>, usize), WireCause>
    requires { at ≤ length bytes.now }
    ensures field { IfOk result (λ read. IsField bytes.now read.1 (entry_of read.0)) }
    ensures here { IfOk result (λ read. read.0.at ≡ at) }
    ensures further { IfOk result (λ read. at < read.1) }
    ensures within { IfOk result (λ read. read.1 ≤ length bytes.now) }
    ensures defect { IfErr result (λ cause. FieldDefect bytes.now at cause) }
{
    let key = read_key(bytes, at)?;
    let (body, next) = read_payload(bytes, key)?;
    let number = key.number;
    Ok((Field { number, at, body }, next))
}

/// The payload after a key, and the offset after the payload.
#[inline(always)]
fn read_payload(bytes: &[u8], key: Key) -> Result<(Body<'_>, usize), WireCause>
    requires { IsKeyOf bytes.now key }
    ensures wire_type { IfOk result (λ read. wire_type_of (content_of read.0)
        ≡ wire_type_number key.wire_type) }
    ensures payload { IfOk result (λ read. IsPayload bytes.now key.end read.1 (content_of read.0)) }
    ensures further { IfOk result (λ read. key.end ≤ read.1) }
    ensures within { IfOk result (λ read. read.1 ≤ length bytes.now) }
    ensures defect { IfErr result (λ cause. FieldDefect bytes.now key.at cause) }
{
    match key.wire_type {
        WireType::Varint => {
            let (value, next) = read_leading(bytes, key)?;
            Ok((Body::Varint { value, at: key.end }, next))
        }
        WireType::Fixed64 => {
            let next = payload_end(bytes, key, key.end, 8)?;
            Ok((Body::Fixed64(&bytes[key.end..next]), next))
        }
        WireType::Bytes => {
            let (size, from) = read_leading(bytes, key)?;
            let next = payload_end(bytes, key, from, size)?;
            let slice = &bytes[from..next];
            Ok((Body::Bytes { from, slice }, next))
        }
        WireType::Fixed32 => {
            let next = payload_end(bytes, key, key.end, 4)?;
            Ok((Body::Fixed32(&bytes[key.end..next]), next))
        }
    }
}

/// The varint that a payload begins with, its value or its length, and the offset after it.
#[inline(always)]
fn read_leading(bytes: &[u8], key: Key) -> Result<(u64, usize), WireCause>
    requires key { IsKeyOf bytes.now key }
    requires leading { HasLeadingVarint (wire_type_number key.wire_type) }
    ensures varint { IfOk result (λ read. EncodesVarint bytes.now key.end read.1 read.0) }
    ensures defect { IfErr result (λ cause. FieldDefect bytes.now key.at cause) }
{
    match read_varint(bytes, key.end) {
        Ok(read) => Ok(read),
        Err(code) => Err(WireCause {
            code,
            at: key.end,
            field: key.number,
        }),
    }
}

/// The offset after the bytes of a payload, of which there are `size` from an offset on.
#[inline(always)]
fn payload_end(bytes: &[u8], key: Key, from: usize, size: u64) -> Result<usize, WireCause>
    requires key { IsKeyOf bytes.now key }
    requires within { from ≤ length bytes.now }
    requires end { PayloadEnd bytes.now key.end (wire_type_number key.wire_type) (from + size) }
    ensures sum { IfOk result (λ end. end ≡ from + size) }
    ensures within { IfOk result (λ end. end ≤ length bytes.now) }
    ensures defect { IfErr result (λ cause. FieldDefect bytes.now key.at cause) }
{
    if size > (bytes.len() - from) as u64 {
        return Err(WireCause {
            code: WireCode::PastEnd,
            at: key.at,
            field: key.number,
        });
    }
    Ok(from + size as usize)
}
