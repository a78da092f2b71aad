//! A cursor over the numbers of a message's fields of one field number, single or packed.
ghost use Rattle.std.specs.Prelude.{◌≡◌, ◌↔◌, ℕ, List, [], ◌<◌, ◌≤◌, ◌^◌, length, take, Option, Some, None, IsNone, IfSome, IfNone, IfOk, IfErr};
ghost use Rattle.mvt_wire.specs.Varint.{EncodesVarint};
ghost use Rattle.mvt_wire.specs.Numbers.{NumbersEnd, NumberWalk, walk_at, StopsVarints, NumbersLeft, HasEnded, GivesNumber, EndsNumbers};
ghost use Rattle.mvt_wire.specs.Calls.Numbers.{LeavesVarints};
ghost use Rattle.mvt_wire.specs.declared.cause.WireCause.{WireCause};

use crate::cause::{WireCause, WireCode};
use crate::field::Body;
use crate::fields::read_field;
use crate::varint::read_varint;
use std::marker::Model;

pub(crate) mod packed;
pub(crate) mod source;
pub(crate) mod span;
#[cfg(test)]
mod tests;
pub(crate) mod whole;

/// Varints one after another: the offset of the first, and the one after the last.
#[derive(Clone, Copy)]
struct Varints {
    at: usize,
    end: usize,
}

/// A cursor over the numbers of a message's fields of one field number: those of single varints and
/// those of packed lists, joined in order (Protocol Buffers encoding, "Packed Repeated Fields").
/// Tags and geometry are such numbers (Mapbox Vector Tile Specification 2.1, sections 4.2 and 4.3).
#[derive(Drop)]
pub struct Numbers<'a> {
    bytes: &'a [u8],
    field_number: u32,
    // What is left of the list that is being read. The next field is due after it.
    varints: Varints,
}

impl<'a> Model for Numbers<'a> {
    ghost Value = { NumberWalk };

    ghost view = { λ numbers. walk_at numbers.bytes.now numbers.field_number numbers.varints.at
        numbers.varints.end };

    ghost invariant = { λ numbers. (numbers.varints.at ≤ numbers.varints.end)
        × (numbers.varints.end ≤ length numbers.bytes.now) };
}

impl<'a> Numbers<'a> {
    /// The numbers of the fields with this field number, in the message that the bytes hold from
    /// one offset up to another. Offsets in what comes out are places in all the bytes.
    pub fn new(bytes: &'a [u8], from: usize, to: usize, number: u32) -> Self
        requires forward { from ≤ to }
        requires within { to ≤ length bytes.now }
        ensures { (numbers : List ℕ) (ending : Option WireCause) →
            NumbersLeft result numbers ending
            ↔ NumbersEnd (take to bytes.entry.now) from number numbers ending }
    {
        Numbers {
            bytes: &bytes[..to],
            field_number: number,
            varints: Varints {
                at: from,
                end: from,
            },
        }
    }

    /// The next number, from 0 to 2^32 - 1, or None at the message's end.
    ///
    /// Errors: a defect of a field, with code 101 to 105, as `Fields` finds it; `OtherType`, at the
    /// key, where a field of the number is neither a varint nor a packed list; `Ends` or `TooLong`
    /// where a packed list goes on with no varint, and `OutOfRange` where a number is 2^32 or more,
    /// both at the varint's first byte. From then on None.
    #[inline(always)]
    pub fn next_number(&mut self) -> Option<Result<u32, WireCause>>
        ensures end { IfNone result (EndsNumbers self.old self.new None) }
        ensures number { IfSome result (λ item. IfOk item (GivesNumber self.old self.new)) }
        ensures fault { IfSome result (λ item.
            IfErr item (λ cause. EndsNumbers self.old self.new (Some cause))) }
        ensures none_from_then_on { HasEnded self.old → (IsNone result) × (self.new ≡ self.old) }
    {
        match varints_left(self.bytes, self.field_number, self.varints) {
            Some(Ok(varints)) => match read_number(self.bytes, self.field_number, varints) {
                Ok((number, next)) => {
                    self.varints = Varints {
                        at: next,
                        end: varints.end,
                    };
                    Some(Ok(number))
                }
                Err(cause) => {
                    self.varints = no_varints(self.bytes.len());
                    Some(Err(cause))
                }
            },
            Some(Err(cause)) => {
                self.varints = no_varints(self.bytes.len());
                Some(Err(cause))
            }
            None => {
                self.varints = no_varints(self.bytes.len());
                None
            }
        }
    }
}

/// No varints, in front of the field that is due at an offset.
#[inline(always)]
fn no_varints(at: usize) -> Varints
    ensures { result ≡ record { at = at; end = at } }
{
    Varints { at, end: at }
}

/// The varints that come next: those left of a list, or else those of the next field that has the
/// field number and states at least one number.
#[inline(always)]
fn varints_left(
    bytes: &[u8],
    field_number: u32,
    varints: Varints,
) -> Option<Result<Varints, WireCause>>
    requires forward { varints.at ≤ varints.end }
    requires within { varints.end ≤ length bytes.now }
    ensures varints { IfSome result (λ item. IfOk item (λ next.
        LeavesVarints (walk_at bytes.now field_number varints.at varints.end) next.at next.end)) }
    ensures fault { IfSome result (λ item. IfErr item (λ cause.
        NumbersLeft (walk_at bytes.now field_number varints.at varints.end) [] (Some cause))) }
    ensures end { IfNone result (NumbersLeft (walk_at bytes.now field_number varints.at varints.end)
        [] None) }
    ensures not_over { IfSome result (λ _. varints.at < length bytes.now) }
{
    if varints.at < varints.end {
        return Some(Ok(varints));
    }
    next_varints(bytes, field_number, varints.end)
}

/// The varints of the next field that has the field number and states at least one number.
#[inline(never)]
fn next_varints(bytes: &[u8], field_number: u32, from: usize) -> Option<Result<Varints, WireCause>>
    requires { from ≤ length bytes.now }
    ensures varints { IfSome result (λ item. IfOk item (λ next.
        LeavesVarints (walk_at bytes.now field_number from from) next.at next.end)) }
    ensures fault { IfSome result (λ item. IfErr item (λ cause.
        NumbersLeft (walk_at bytes.now field_number from from) [] (Some cause))) }
    ensures end { IfNone result (NumbersLeft (walk_at bytes.now field_number from from) [] None) }
    ensures not_over { IfSome result (λ _. from < length bytes.now) }
{
    let mut at = from;
    while at < bytes.len() {
        let varints = match field_varints(bytes, field_number, at) {
            Ok(varints) => varints,
            Err(cause) => return Some(Err(cause)),
        };
        if varints.at < varints.end {
            return Some(Ok(varints));
        }
        at = varints.end;
    }
    None
}

/// The varints of the field at an offset, up to the next field; none where it has another field
/// number.
fn field_varints(bytes: &[u8], field_number: u32, at: usize) -> Result<Varints, WireCause>
    requires { at < length bytes.now }
    ensures same { IfOk result (λ varints. (numbers : List ℕ) (ending : Option WireCause) →
        NumbersLeft (walk_at bytes.now field_number varints.at varints.end) numbers ending
        → NumbersEnd bytes.now at field_number numbers ending) }
    ensures further { IfOk result (λ varints. at < varints.at) }
    ensures forward { IfOk result (λ varints. varints.at ≤ varints.end) }
    ensures within { IfOk result (λ varints. varints.end ≤ length bytes.now) }
    ensures fault { IfErr result (λ cause. NumbersEnd bytes.now at field_number [] (Some cause)) }
{
    let (field, next) = read_field(bytes, at)?;
    if field.number != field_number {
        return Ok(no_varints(next));
    }
    match field.body {
        Body::Varint { at, .. } => Ok(Varints { at, end: next }),
        Body::Bytes { from, .. } => Ok(Varints {
            at: from,
            end: next,
        }),
        Body::Fixed64(_) | Body::Fixed32(_) => Err(WireCause {
            code: WireCode::OtherType,
            at: field.at,
            field: field_number,
        }),
    }
}

/// The number that the varints begin with, and the offset after it.
#[inline(always)]
fn read_number(bytes: &[u8], field_number: u32, varints: Varints) -> Result<(u32, usize), WireCause>
    requires left { varints.at < varints.end }
    requires within { varints.end ≤ length bytes.now }
    ensures number { IfOk result (λ read.
        EncodesVarint (take varints.end bytes.now) varints.at read.1 read.0) }
    ensures small { IfOk result (λ read. read.0 < 2 ^ 32) }
    ensures fault { IfErr result (λ cause.
        StopsVarints (take varints.end bytes.now) varints.at field_number [] cause) }
{
    let at = varints.at;
    let field = field_number;
    let (value, next) = match read_varint(&bytes[..varints.end], at) {
        Ok(read) => read,
        Err(code) => return Err(WireCause { code, at, field }),
    };
    match u32::try_from(value) {
        Ok(number) => Ok((number, next)),
        Err(_) => Err(WireCause {
            code: WireCode::OutOfRange,
            at,
            field,
        }),
    }
}
