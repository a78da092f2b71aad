//! The numbers of a message that is known to be whole, decoded where they stand.
ghost use Rattle.std.specs.Prelude.{◌≡◌, ◌+◌, ◌≤◌, ◌<◌, ◌^◌, ℕ, true, List, [], length, take, IfSome, None};
ghost use Rattle.mvt_wire.specs.Field.{content_of, wire_type_of};
ghost use Rattle.mvt_wire.specs.Calls.Numbers.{BeginVarints, HasNoNumberFault, LeavesVarints};
ghost use Rattle.mvt_wire.specs.Numbers.{HasNoNumber, IsFaultless, NumbersLeft, walk_at};
ghost use Rattle.mvt_wire.specs.Schema.{is_own};
ghost use Rattle.mvt_wire.specs.Varint.{EncodesVarint};
ghost use Rattle.mvt_wire.specs.declared.schema.Shape.TheVariants as Shapes;

use crate::field::Body;
use crate::fields::Fields;
use crate::numbers::source::NumberSource;
use crate::numbers::span::NumberSpan;
use crate::varint::whole_varint;

/// The numbers that the fields of one number state in a message that is known to be whole, with no
/// fault of these numbers (Protocol Buffers encoding, "Packed Repeated Fields"). They are decoded
/// where they stand.
#[derive(Clone, Copy)]
pub struct WholeNumbers<'a> {
    /// The bytes up to the message's end.
    bytes: &'a [u8],
    field_number: u32,
    /// The offset of the next number in the field that is being read.
    at: usize,
    /// The offset after that field.
    end: usize,
    /// An offset from which on no field states numbers.
    last: usize,
    ghost forward: { at ≤ end },
    ghost within: { end ≤ length bytes.now },
    ghost faultless: { IsFaultless (walk_at bytes.now field_number at end) },
    ghost no_more: { HasNoNumber bytes.now last field_number },
}

impl<'a> WholeNumbers<'a> {
    ghost use Rattle.mvt_wire.specs.NumberSources.{AreLeft, StandIn};

    /// The numbers that stand in a span of a message, which the bytes end with.
    #[inline(always)]
    pub fn new(bytes: &'a [u8], span: NumberSpan, number: u32) -> WholeNumbers<'a>
        requires { StandIn bytes.now number span }
        ensures { (given : List ℕ) → NumbersLeft (walk_at bytes.entry.now number span.at span.end)
            given None → AreLeft result given }
    {
        WholeNumbers {
            bytes,
            field_number: number,
            at: span.at,
            end: span.end,
            last: span.last,
        }
    }
}

impl NumberSource for WholeNumbers<'_> {
    ghost use Rattle.mvt_wire.specs.NumberSources.{AreLeft, most_bytes};

    ghost Leaves = { AreLeft };

    ghost most = { most_bytes };

    #[inline(always)]
    fn next_number(&mut self) -> Option<u32> {
        let (at, end) = varints_left(self.bytes, self.field_number, self.at, self.end, self.last);
        if at >= end {
            return None;
        }
        let (number, next) = next_varint(self.bytes, at, end);
        self.at = next;
        self.end = end;
        Some(number)
    }

    #[inline(always)]
    fn next_small_pair(&mut self) -> Option<(u32, u32)> {
        // (the next field is left to the reading of one number)
        let (first, second, next) = small_pair(&self.bytes[..self.end], self.at)?;
        self.at = next;
        Some((first, second))
    }

    #[inline(always)]
    fn next_short_pair(&mut self) -> Option<(u32, u32)> {
        let (first, second, next) = short_pair(&self.bytes[..self.end], self.at)?;
        self.at = next;
        Some((first, second))
    }
}

/// The two numbers at an offset, and the offset after them, where each has one byte, as most have in
/// a tile.
#[inline(always)]
fn small_pair(bytes: &[u8], at: usize) -> Option<(u32, u32, usize)>
    requires { at ≤ length bytes.now }
    ensures numbers { IfSome result (λ read. (between : ℕ) × EncodesVarint bytes.now at between read.0
        × EncodesVarint bytes.now between read.2 read.1) }
    ensures small { IfSome result (λ read. (read.0 < 128) × (read.1 < 128)) }
{
    let next = at + 2;
    if next > bytes.len() {
        return None;
    }
    let (first, second) = (bytes[at], bytes[at + 1]);
    if first >= 128 || second >= 128 {
        return None;
    }
    Some((u32::from(first), u32::from(second), next))
}

/// The same where each has one byte or two, and four bytes are left.
#[inline(always)]
fn short_pair(bytes: &[u8], at: usize) -> Option<(u32, u32, usize)>
    requires { at ≤ length bytes.now }
    ensures numbers { IfSome result (λ read. (between : ℕ) × EncodesVarint bytes.now at between read.0
        × EncodesVarint bytes.now between read.2 read.1) }
    ensures small { IfSome result (λ read. (read.0 < 2 ^ 14) × (read.1 < 2 ^ 14)) }
{
    if at + 4 > bytes.len() {
        return None;
    }
    let (first, between) = short_number(bytes, at)?;
    let (second, next) = short_number(bytes, between)?;
    Some((first, second, next))
}

/// The number at an offset, and the offset after it, where it has one byte or two.
#[inline(always)]
fn short_number(bytes: &[u8], at: usize) -> Option<(u32, usize)>
    requires { at + 1 < length bytes.now }
    ensures number { IfSome result (λ read. EncodesVarint bytes.now at read.1 read.0) }
    ensures small { IfSome result (λ read. read.0 < 2 ^ 14) }
    ensures near { IfSome result (λ read. read.1 ≤ at + 2) }
{
    let (first, second) = (bytes[at], bytes[at + 1]);
    let is_long = first >= 128;
    if is_long && second >= 128 {
        return None;
    }
    // (no branch where either is as likely)
    let high = if is_long { u32::from(second) } else { 0 };
    let next = at + 1 + usize::from(is_long);
    Some((u32::from(first % 128) + high * 128, next))
}

/// Where the varints begin that come next, and where they end: those left in a field, or else those
/// of the next field of the number that states any, or none. From `last` on no field states
/// numbers.
#[inline(always)]
fn varints_left(bytes: &[u8], number: u32, at: usize, end: usize, last: usize) -> (usize, usize)
    requires forward { at ≤ end }
    requires within { end ≤ length bytes.now }
    requires faultless { IsFaultless (walk_at bytes.now number at end) }
    requires no_more { HasNoNumber bytes.now last number }
    ensures found { result.0 < result.1 → LeavesVarints (walk_at bytes.now number at end) result.0
        result.1 }
    ensures none { result.1 ≤ result.0 → NumbersLeft (walk_at bytes.now number at end) [] None }
{
    if at < end {
        return (at, end);
    }
    if end == last {
        return (end, end);
    }
    next_varints(bytes, number, end)
}

/// The same for the fields from an offset on.
#[inline(never)]
fn next_varints(bytes: &[u8], number: u32, from: usize) -> (usize, usize)
    requires within { from ≤ length bytes.now }
    requires faultless { HasNoNumberFault bytes.now from number }
    ensures found { result.0 < result.1 → LeavesVarints (walk_at bytes.now number from from)
        result.0 result.1 }
    ensures none { result.1 ≤ result.0 → NumbersLeft (walk_at bytes.now number from from) [] None }
{
    let mut fields = Fields::new(bytes, from, bytes.len());
    'walk: while let Some(field) = fields.next_whole() {
        if field.number == number {
            let at = varints_in(field.body);
            let end = fields.at();
            if at < end {
                return (at, end);
            }
        }
    }
    (bytes.len(), bytes.len())
}

/// The offset of the first varint of a field of numbers, or where it would be.
#[inline(always)]
pub(super) fn varints_in(body: Body) -> usize
    requires { is_own Shapes.Numbers (wire_type_of (content_of body)) ≡ true }
    ensures { BeginVarints (content_of body.entry) result }
{
    match body {
        Body::Bytes { from, .. } => from,
        Body::Varint { at, .. } => at,
        _ => unreachable!(),
    }
}

/// The number at an offset of a field's varints, and the offset after it.
#[inline(always)]
fn next_varint(bytes: &[u8], at: usize, end: usize) -> (u32, usize)
    requires within { end ≤ length bytes.now }
    requires stands { (n next : ℕ) × EncodesVarint (take end bytes.now) at next n × (n < 2 ^ 32) }
    ensures number { EncodesVarint (take end bytes.now) at result.1 result.0 }
    ensures small { result.0 < 2 ^ 32 }
{
    let (value, next) = whole_varint(&bytes[..end], at);
    (value as u32, next)
}
