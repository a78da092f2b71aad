//! The places of a list that hold the same.
ghost use Rattle.std.specs.Prelude.{IfOk};
ghost use Rattle.mvt_tile.specs.Calls.Equal.{AreFirstPlaces, HavePlaces, HeldAt};

use std::alloc::{AllocError, Global};

/// What a place of a list holds: a text, with a number that it determines; or a number alone, and
/// no text. The number comes first, so that a sort reads the texts of two places only where their
/// numbers are the same.
#[derive(Clone, Copy, PartialEq, Eq, PartialOrd, Ord)]
pub(crate) struct Held<'a> {
    pub(crate) number: u64,
    pub(crate) text: &'a [u8],
    pub(crate) place: usize,
}

/// For each place up to the bound the first one that holds the same, where that comes before it. It
/// sorts what the places hold, so that those that hold the same are neighbours. The only error is
/// that memory was refused.
pub(crate) fn first_places(
    alloc: Global,
    mut held: Vec<Held<'_>>,
    bound: usize,
) -> Result<Vec<Option<usize>>, AllocError>
    requires { HavePlaces bound held.items }
    ensures { IfOk result (λ firsts. AreFirstPlaces (HeldAt held.entry.items) firsts.items) }
{
    if held.len() < 2 {
        return Ok(Vec::new(alloc));
    }
    held.sort_unstable();
    let mut firsts = vec![in alloc; None; bound]?;
    for at in 1..held.len() {
        let before = held[at - 1];
        let item = held[at];
        if before.number == item.number && before.text == item.text {
            firsts[item.place] = Some(firsts[before.place].unwrap_or(before.place));
        }
    }
    Ok(firsts)
}
