//! Packed lists of numbers (Protocol Buffers encoding, "Packed Repeated Fields").
ghost use Rattle.std.specs.Prelude.{◌≡◌, ◌+◌, ◌<◌, ◌≤◌, ◌^◌, ◌⊎◌, length, IfErr, IfNone, IfOk, IfSome, IsFalse, IsTrue};
ghost use Rattle.mvt_wire.specs.Number.{PackedFault};
ghost use Rattle.mvt_wire.specs.Calls.Packed.{IsBadNumber, IsSmallNumber, AreSmallBefore, HasNoRun, IsFirstBad};

use crate::cause::{WireCause, WireCode};
use crate::varint::read_varint;
use std::simd::prelude::*;

/// The first fault of a packed list of numbers below 2^32, the payload of a field with a number.
/// The payload begins at the offset `from`.
#[inline(always)]
pub fn packed_fault(part: &[u8], from: usize, number: u32) -> Option<WireCause>
    requires { from + length part.now < 2 ^ 64 }
    ensures none { IfNone result ((cause : WireCause) → ¬ PackedFault from part.now number cause) }
    ensures fault { IfSome result (PackedFault from part.now number) }
    ensures first { IfSome result (λ cause. (other : WireCause)
        → PackedFault from part.now number other → (cause.at < other.at) ⊎ (cause ≡ other)) }
{
    // (so it is with most lists, and is seen without a walk over single bytes)
    if are_short(part) {
        return None;
    }
    let (at, code) = first_bad(part)?;
    Some(WireCause {
        code,
        at: from + at,
        field: number,
    })
}

/// The offset of the first number that isn't below 2^32 or isn't whole, and what is wrong with it.
#[cold]
#[inline(never)]
fn first_bad(part: &[u8]) -> Option<(usize, WireCode)>
    ensures none { IfNone result (AreSmallBefore part.now (length part.now)) }
    ensures first { IfSome result (λ bad. IsFirstBad part.now bad.0 bad.1) }
{
    let mut at = 0;
    'numbers: while at < part.len() {
        match small_end(part, at) {
            Ok(next) => at = next,
            Err(code) => return Some((at, code)),
        }
    }
    None
}

/// The offset after the number at an offset, or what is wrong with that number. Nothing has to be
/// computed of one that has up to four bytes, so below 2^28, or five of which the last is below 16.
#[inline(always)]
fn small_end(part: &[u8], at: usize) -> Result<usize, WireCode>
    requires { at < length part.now }
    ensures small { IfOk result (IsSmallNumber part.now at) }
    ensures bad { IfErr result (IsBadNumber part.now at) }
{
    if part.len() - at >= 5 {
        if part[at] < 128 {
            return Ok(at + 1);
        }
        if part[at + 1] < 128 {
            return Ok(at + 2);
        }
        if part[at + 2] < 128 {
            return Ok(at + 3);
        }
        if part[at + 3] < 128 {
            return Ok(at + 4);
        }
        if part[at + 4] < 16 {
            return Ok(at + 5);
        }
    }
    longer_end(part, at)
}

/// The same for any number, by reading it.
#[cold]
#[inline(never)]
fn longer_end(part: &[u8], at: usize) -> Result<usize, WireCode>
    requires { at < length part.now }
    ensures small { IfOk result (IsSmallNumber part.now at) }
    ensures bad { IfErr result (IsBadNumber part.now at) }
{
    let (number, next) = read_varint(part, at)?;
    if number >= 1 << 32 {
        return Err(WireCode::OutOfRange);
    }
    Ok(next)
}

/// Whether a list is known to be whole, with numbers of up to four bytes only, and so below 2^28.
#[inline(always)]
fn are_short(part: &[u8]) -> bool
    ensures { IsTrue result → AreSmallBefore part.now (length part.now) }
{
    match part.last() {
        None => true,
        Some(&last) => last < 128 && !has_run(part),
    }
}

/// Whether four bytes in a row may be 128 or more, as in a number that goes on after its fourth
/// byte.
#[inline(always)]
fn has_run(part: &[u8]) -> bool
    ensures { IsFalse result → HasNoRun part.now 0 (length part.now) }
{
    part.len() >= 4 && has_run_among(part)
}

/// The same among four bytes or more. One step takes as many places at once as fit.
#[inline(never)]
fn has_run_among(part: &[u8]) -> bool
    requires { 4 ≤ length part.now }
    ensures { IsFalse result → HasNoRun part.now 0 (length part.now) }
{
    match part.len() {
        0..7 => has_run_by::<1>(part),
        7..11 => has_run_by::<4>(part),
        11..19 => has_run_by::<8>(part),
        _ => has_run_by::<16>(part),
    }
}

/// The same by checks of WIDTH places. The last of them goes back to the last WIDTH places, so that
/// none are left over.
#[inline(always)]
fn has_run_by<const WIDTH: usize>(part: &[u8]) -> bool
    requires long { WIDTH + 3 ≤ length part.now }
    requires positive { 0 < WIDTH }
    requires lanes { WIDTH ≤ 64 }
    ensures { IsFalse result → HasNoRun part.now 0 (length part.now) }
{
    let last = part.len() - WIDTH - 3;
    let mut at = 0;
    'checks: while at < last {
        if has_run_at::<WIDTH>(part, at) {
            return true;
        }
        at += WIDTH;
    }
    has_run_at::<WIDTH>(part, last)
}

/// Whether four bytes in a row are 128 or more from one of the WIDTH places after an offset on.
#[inline(always)]
fn has_run_at<const WIDTH: usize>(part: &[u8], at: usize) -> bool
    requires within { at + WIDTH + 3 ≤ length part.now }
    requires lanes { WIDTH ≤ 64 }
    ensures { IsFalse result → HasNoRun part.now at (at + WIDTH) }
{
    let low = Simd::<u8, WIDTH>::from_slice(&part[at..]) & Simd::from_slice(&part[at + 1..]);
    let high = Simd::<u8, WIDTH>::from_slice(&part[at + 2..]) & Simd::from_slice(&part[at + 3..]);
    (low & high).simd_ge(Simd::splat(128)).any()
}
