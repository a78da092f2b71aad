ghost use Rattle.std.specs.Prelude.{◌≡◌, ℕ, ◌+◌, ◌^◌, ◌<◌, ◌≤◌, ◌⊎◌, length, slice_index, take, drop, IfSome, IfNone, IfOk, IfErr};
ghost use Rattle.mvt_wire.specs.Varint.{sum_of_groups, IsVarint, EncodesVarint, EndsEarly, IsTooLong, VarintDefect};
ghost use Rattle.mvt_wire.specs.declared.cause.WireCode.{WireCode};

use crate::cause::WireCode;

/// The varint at an offset: its value, and the offset after it (Protocol Buffers encoding, "Base
/// 128 Varints"). A varint longer than its value needs is read as well, up to ten bytes.
///
/// Errors: `Ends` where the bytes end before the varint does, `TooLong` where it isn't below 2^64.
#[inline(always)]
pub fn read_varint(bytes: &[u8], at: usize) -> Result<(u64, usize), WireCode>
    requires { at ≤ length bytes.now }
    ensures found { IfOk result (λ read. EncodesVarint bytes.now at read.1 read.0) }
    ensures only { (n to : ℕ) → EncodesVarint bytes.now at to n → result ≡ Ok (n, to) }
    ensures refused { IfErr result (λ code. VarintDefect code (drop at bytes.now)) }
    ensures refused_only { (code : WireCode) → VarintDefect code (drop at bytes.now)
        → result ≡ Err code }
{
    if let Some(read) = short_varint(bytes, at) {
        return Ok(read);
    }
    match long_varint(bytes, at) {
        Some(read) => Ok(read),
        None => Err(varint_defect(&bytes[at..])),
    }
}

/// The varint at an offset, and the offset after it, where it has one byte or two, as nearly all
/// have in a tile, or three to five and five bytes are left.
#[inline(always)]
fn short_varint(bytes: &[u8], at: usize) -> Option<(u64, usize)>
    requires { at ≤ length bytes.now }
    ensures { IfSome result (λ read. EncodesVarint bytes.now at read.1 read.0) }
{
    let &first = bytes.get(at)?;
    if first < 128 {
        return Some((u64::from(first), at + 1));
    }
    let &second = bytes.get(at + 1)?;
    if second < 128 {
        return Some((u64::from(first % 128) + u64::from(second) * 128, at + 2));
    }
    if bytes.len() - at < 5 {
        return None;
    }
    middle_varint(bytes, at)
}

/// The varint at an offset, and the offset after it, where it has three to five bytes, as those of
/// 32-bit numbers have. Each byte is there unless an earlier one ends the varint.
#[inline(always)]
fn middle_varint(bytes: &[u8], at: usize) -> Option<(u64, usize)>
    requires long { (128 ≤ slice_index bytes.now at) × (128 ≤ slice_index bytes.now (at + 1)) }
    requires third { at + 2 < length bytes.now }
    requires fourth { 128 ≤ slice_index bytes.now (at + 2) → at + 3 < length bytes.now }
    requires fifth { 128 ≤ slice_index bytes.now (at + 2) → 128 ≤ slice_index bytes.now (at + 3)
        → at + 4 < length bytes.now }
    ensures found { IfSome result (λ read. EncodesVarint bytes.now at read.1 read.0) }
    ensures longer { IfNone result ((128 ≤ slice_index bytes.now (at + 2))
        × (128 ≤ slice_index bytes.now (at + 3)) × (128 ≤ slice_index bytes.now (at + 4))) }
{
    let two = u64::from(bytes[at] % 128) + u64::from(bytes[at + 1] % 128) * 128;
    let three = two + u64::from(bytes[at + 2] % 128) * 16_384;
    if bytes[at + 2] < 128 {
        return Some((three, at + 3));
    }
    let four = three + u64::from(bytes[at + 3] % 128) * 2_097_152;
    if bytes[at + 3] < 128 {
        return Some((four, at + 4));
    }
    let five = four + u64::from(bytes[at + 4] % 128) * 268_435_456;
    if bytes[at + 4] < 128 {
        return Some((five, at + 5));
    }
    None
}

/// The same for one of six to ten bytes, as many ids of features have.
#[inline(always)]
fn wide_varint(bytes: &[u8], at: usize) -> Option<(u64, usize)>
    requires long { (128 ≤ slice_index bytes.now at) × (128 ≤ slice_index bytes.now (at + 1)) }
    requires longer { (128 ≤ slice_index bytes.now (at + 2))
        × (128 ≤ slice_index bytes.now (at + 3)) × (128 ≤ slice_index bytes.now (at + 4)) }
    requires there { at + 9 < length bytes.now }
    ensures { IfSome result (λ read. EncodesVarint bytes.now at read.1 read.0) }
{
    let two = u64::from(bytes[at] % 128) + 128 * u64::from(bytes[at + 1] % 128);
    let three = two + 16_384 * u64::from(bytes[at + 2] % 128);
    let four = three + 2_097_152 * u64::from(bytes[at + 3] % 128);
    let five = four + 268_435_456 * u64::from(bytes[at + 4] % 128);
    let six = five + 34_359_738_368 * u64::from(bytes[at + 5] % 128);
    if bytes[at + 5] < 128 {
        return Some((six, at + 6));
    }
    let seven = six + 4_398_046_511_104 * u64::from(bytes[at + 6] % 128);
    if bytes[at + 6] < 128 {
        return Some((seven, at + 7));
    }
    let eight = seven + 562_949_953_421_312 * u64::from(bytes[at + 7] % 128);
    if bytes[at + 7] < 128 {
        return Some((eight, at + 8));
    }
    let nine = eight + 72_057_594_037_927_936 * u64::from(bytes[at + 8] % 128);
    if bytes[at + 8] < 128 {
        return Some((nine, at + 9));
    }
    // (one bit is left below 2^64)
    if bytes[at + 9] > 1 {
        return None;
    }
    let ten = nine + 9_223_372_036_854_775_808 * u64::from(bytes[at + 9]);
    Some((ten, at + 10))
}

/// The same for one of three to ten bytes, where ten are left.
#[inline(always)]
fn ten_varint(bytes: &[u8], at: usize) -> Option<(u64, usize)>
    requires long { (128 ≤ slice_index bytes.now at) × (128 ≤ slice_index bytes.now (at + 1)) }
    requires there { at + 9 < length bytes.now }
    ensures { IfSome result (λ read. EncodesVarint bytes.now at read.1 read.0) }
{
    match middle_varint(bytes, at) {
        Some(read) => Some(read),
        None => wide_varint(bytes, at),
    }
}

/// The varint at an offset, of any size, and the offset after it; None where none is there.
#[inline(always)]
fn long_varint(bytes: &[u8], at: usize) -> Option<(u64, usize)>
    requires { at ≤ length bytes.now }
    ensures found { IfSome result (λ read. EncodesVarint bytes.now at read.1 read.0) }
    ensures refused { IfNone result (EndsEarly (drop at bytes.now)
        ⊎ IsTooLong (drop at bytes.now)) }
{
    let rest = &bytes[at..];
    let size = varint_size(rest)?;
    Some((varint_value(&rest[..size]), at + size))
}

/// How many bytes the varint has that the bytes begin with, or None where they begin with none.
#[inline(never)]
fn varint_size(rest: &[u8]) -> Option<usize>
    ensures within { IfSome result (λ size. size ≤ length rest.now) }
    ensures found { IfSome result (λ size.
        IsVarint (take size rest.now) (sum_of_groups (take size rest.now))) }
    ensures refused { IfNone result (EndsEarly rest.now ⊎ IsTooLong rest.now) }
{
    for (i, &byte) in rest.iter().enumerate() {
        if i == 9 {
            // One bit is left below 2^64.
            return if byte > 1 { None } else { Some(10) };
        }
        if byte < 128 {
            return Some(i + 1);
        }
    }
    None
}

/// The number that a varint encodes.
#[inline(never)]
fn varint_value(encoding: &[u8]) -> u64
    requires { sum_of_groups encoding.now < 2 ^ 64 }
    ensures { result ≡ sum_of_groups encoding.now }
{
    let mut value = 0;
    for i in (0..encoding.len()).rev() {
        value = value * 128 + u64::from(encoding[i] % 128);
    }
    value
}

/// What keeps bytes from beginning with a varint.
#[inline(never)]
fn varint_defect(rest: &[u8]) -> WireCode
    requires { EndsEarly rest.now ⊎ IsTooLong rest.now }
    ensures { VarintDefect result rest.now }
{
    if rest.len() < 10 {
        WireCode::Ends
    } else {
        WireCode::TooLong
    }
}

/// The varint at an offset, and the offset after it; None where none is there.
#[inline(always)]
pub fn leading_varint(bytes: &[u8], at: usize) -> Option<(u64, usize)>
    requires { at < length bytes.now }
    ensures found { IfSome result (λ read. EncodesVarint bytes.now at read.1 read.0) }
    ensures refused { IfNone result (EndsEarly (drop at bytes.now)
        ⊎ IsTooLong (drop at bytes.now)) }
{
    let first = bytes[at];
    if first < 128 {
        return Some((u64::from(first), at + 1));
    }
    let &second = bytes.get(at + 1)?;
    let value = u64::from(first % 128) + u64::from(second % 128) * 128;
    if second < 128 {
        return Some((value, at + 2));
    }
    match bytes.get(at + 2) {
        Some(&third) if third < 128 => Some((value + u64::from(third) * 16_384, at + 3)),
        _ => longer_leading(bytes, at),
    }
}

/// The same for one of more bytes.
#[inline(never)]
fn longer_leading(bytes: &[u8], at: usize) -> Option<(u64, usize)>
    requires there { at + 1 < length bytes.now }
    requires long { (128 ≤ slice_index bytes.now at) × (128 ≤ slice_index bytes.now (at + 1)) }
    ensures found { IfSome result (λ read. EncodesVarint bytes.now at read.1 read.0) }
    ensures refused { IfNone result (EndsEarly (drop at bytes.now)
        ⊎ IsTooLong (drop at bytes.now)) }
{
    if bytes.len() - at >= 10 {
        if let Some(read) = ten_varint(bytes, at) {
            return Some(read);
        }
    }
    read_varint(bytes, at).ok()
}

/// The varint that stands at an offset, and the offset after it. Nearly all have one byte or two in
/// a tile.
#[inline(always)]
pub(crate) fn whole_varint(bytes: &[u8], at: usize) -> (u64, usize)
    requires { (n next : ℕ) × EncodesVarint bytes.now at next n }
    ensures { EncodesVarint bytes.now at result.1 result.0 }
{
    let first = bytes[at];
    if first < 128 {
        return (u64::from(first), at + 1);
    }
    let second = bytes[at + 1];
    if second < 128 {
        return (u64::from(first % 128) + u64::from(second) * 128, at + 2);
    }
    longer_varint(bytes, at)
}

/// The same for one of three bytes or more.
#[inline(never)]
fn longer_varint(bytes: &[u8], at: usize) -> (u64, usize)
    requires stands { (n next : ℕ) × EncodesVarint bytes.now at next n }
    requires long { (128 ≤ slice_index bytes.now at) × (128 ≤ slice_index bytes.now (at + 1)) }
    ensures { EncodesVarint bytes.now at result.1 result.0 }
{
    match middle_varint(bytes, at) {
        Some(read) => read,
        None => longest_varint(bytes, at),
    }
}

/// The same for one of any size.
#[cold]
#[inline(never)]
fn longest_varint(bytes: &[u8], at: usize) -> (u64, usize)
    requires stands { (n next : ℕ) × EncodesVarint bytes.now at next n }
    requires long { (128 ≤ slice_index bytes.now at) × (128 ≤ slice_index bytes.now (at + 1)) }
    ensures { EncodesVarint bytes.now at result.1 result.0 }
{
    if bytes.len() - at >= 10 {
        if let Some(read) = ten_varint(bytes, at) {
            return read;
        }
    }
    match long_varint(bytes, at) {
        Some(read) => read,
        None => unreachable!(),
    }
}
