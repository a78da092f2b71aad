//! Splits pieces where they meet.

use crate::meetings::Split;
use crate::pieces::{Pieces, between};
use mvt_segments::Segment;
use std::alloc::{AllocError, Global};

/// Splits pieces there. What comes of it is fresh.
pub(crate) fn split(
    alloc: Global,
    pieces: &mut Pieces,
    splits: Vec<Split>,
) -> Result<(), AllocError> {
    let mut splits = splits;
    splits.sort_unstable_by_key(|split| (split.number, split.along));
    let mut parts = Vec::with_capacity(alloc, splits.len())?;
    for cuts in splits.chunk_by(|one, other| one.number == other.number) {
        take_apart(pieces, cuts, &mut parts)?;
    }
    drop(splits);
    pieces.go_on_with(alloc, parts)
}

/// Adds the parts that come of one piece, which is cut in order and loses its gain.
fn take_apart(
    pieces: &mut Pieces,
    cuts: &[Split],
    parts: &mut Vec<Segment>,
) -> Result<(), AllocError> {
    let Some(first) = cuts.first() else {
        return Ok(());
    };
    let Some(whole) = pieces.take_gain(first.number) else {
        return Ok(());
    };
    let mut from = whole.a;
    for cut in cuts {
        // (several others may meet it in one position)
        if cut.at != from {
            parts.push(between(&whole, from, cut.at))?;
            from = cut.at;
        }
    }
    parts.push(between(&whole, from, whole.b))?;
    Ok(())
}
