//! Rings with no position that repeats the one before.

use mvt_plane::Point;
use std::alloc::{AllocError, Global};

/// The rings with no position that is the one before again, the first one after the last included,
/// without those that then have fewer than three. The only error is that memory was refused.
pub(super) fn drawn_rings(
    alloc: Global,
    rings: &[Vec<Point>],
) -> Result<Vec<Vec<Point>>, AllocError> {
    let mut drawn = Vec::with_capacity(alloc, rings.len())?;
    for ring in rings {
        let cleaned = without_repeats(alloc, ring)?;
        if cleaned.len() >= 3 {
            drawn.push(cleaned)?;
        }
    }
    Ok(drawn)
}

/// The positions that differ from the one before.
fn without_repeats(alloc: Global, ring: &[Point]) -> Result<Vec<Point>, AllocError> {
    let mut kept = kept_of(alloc, ring)?;
    if kept.len() > 1 && kept.first() == kept.last() {
        kept.pop();
    }
    Ok(kept)
}

/// The same, where the last one may be the first one again.
fn kept_of(alloc: Global, ring: &[Point]) -> Result<Vec<Point>, AllocError> {
    let mut kept = Vec::with_capacity(alloc, ring.len())?;
    for position in ring {
        if kept.last() != Some(position) {
            kept.push(*position)?;
        }
    }
    Ok(kept)
}
