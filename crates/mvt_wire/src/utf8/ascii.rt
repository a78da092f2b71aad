//! Texts of ASCII characters alone, as most are.
ghost use Rattle.std.specs.Prelude.{◌+◌, ◌≤◌, ◌<◌, IsTrue, IsAscii, length};
ghost use Rattle.mvt_wire.specs.Calls.Ascii.{IsAsciiWithin};

use std::simd::prelude::*;

/// Whether all bytes are known to be ASCII characters. One step takes as many at once as fit.
#[inline(always)]
pub(super) fn is_ascii(part: &[u8]) -> bool
    ensures { IsTrue result → IsAscii part.now }
{
    match part.len() {
        0..4 => part.is_ascii(),
        4..8 => is_ascii_by::<4>(part),
        8..16 => is_ascii_by::<8>(part),
        _ => is_ascii_by::<16>(part),
    }
}

/// The same by steps of WIDTH bytes. The last of them goes back to the last WIDTH bytes, so that
/// none are left over.
#[inline(always)]
fn is_ascii_by<const WIDTH: usize>(part: &[u8]) -> bool
    requires long { WIDTH ≤ length part.now }
    requires positive { 0 < WIDTH }
    requires lanes { WIDTH ≤ 64 }
    ensures { IsTrue result → IsAscii part.now }
{
    let last = part.len() - WIDTH;
    let mut at = 0;
    'steps: while at < last {
        if !is_ascii_at::<WIDTH>(part, at) {
            return false;
        }
        at += WIDTH;
    }
    is_ascii_at::<WIDTH>(part, last)
}

/// Whether the WIDTH bytes from an offset on are ASCII characters.
#[inline(always)]
fn is_ascii_at<const WIDTH: usize>(part: &[u8], at: usize) -> bool
    requires within { at + WIDTH ≤ length part.now }
    requires lanes { WIDTH ≤ 64 }
    ensures { IsTrue result → IsAsciiWithin part.now at (at + WIDTH) }
{
    !Simd::<u8, WIDTH>::from_slice(&part[at..])
        .simd_ge(Simd::splat(128))
        .any()
}
