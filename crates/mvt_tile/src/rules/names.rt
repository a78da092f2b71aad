//! The names of layers (Mapbox Vector Tile Specification 2.1, section 4.1).
ghost use Rattle.std.specs.Prelude.{◌≡◌, ◌<◌, ◌≤◌, ◌++◌, ◌∷◌, [], IfNone, IfSome, IsFalse, IsTrue, Some, OnOk, ℕ, length};
ghost use Rattle.mvt_tile.specs.Calls.Names.{IsFirstRepeated, IsRepeated, name_key};

use crate::first_places::Held;
use std::alloc::{AllocError, Global};
use std::marker::Model;

/// The names of several layers, in their order: of each its text, with the key of the text, and the
/// layer's ordinal as its place.
#[derive(Drop)]
pub(crate) struct SeveralNames<'a> {
    names: Vec<Held<'a>>,
}

impl<'a> Model for SeveralNames<'a> {
    ghost use Rattle.std.specs.Prelude.{◌≡◌, ℕ, List, map, All};
    ghost use Rattle.mvt_tile.specs.Calls.Names.{AreNumbered, name_key};

    ghost Value = { List (List ℕ) };

    ghost view = { λ names. map (λ named. named.text.now) names.names.items };

    ghost invariant = { λ names. AreNumbered (map (λ named. named.place) names.names.items)
        × All (λ named. named.number ≡ name_key named.text.now) names.names.items };
}

impl<'a> SeveralNames<'a> {
    /// No names. It takes no memory.
    pub(crate) fn new(alloc: Global) -> SeveralNames<'a>
        ensures { result ≡ [] }
    {
        SeveralNames {
            names: Vec::new(alloc),
        }
    }

    /// How many names there are.
    pub(crate) fn len(&self) -> usize
        ensures { result ≡ length self.now }
    {
        self.names.len()
    }

    /// Adds the name of the next layer. The only error is that memory was refused.
    #[inline(never)]
    pub(crate) fn add(&mut self, name: &'a [u8]) -> Result<(), AllocError>
        ensures { OnOk result (self.new ≡ self.old ++ name.now ∷ []) }
    {
        let place = self.names.len();
        let number = name_key(name);
        self.names.push(Held {
            number,
            text: name,
            place,
        })?;
        Ok(())
    }

    /// The ordinals of two layers that have one name: of all such pairs the one with the earliest
    /// second layer. It sorts the names, so that those that are the same are neighbours.
    #[inline(never)]
    pub(crate) fn first_repeated(self) -> Option<(usize, usize)>
        ensures none { IfNone result ((first second : ℕ) → ¬ IsRepeated self.entry first second) }
        ensures first { IfSome result (λ found. IsFirstRepeated self.entry found.0 found.1) }
    {
        let mut names = self.names;
        names.sort_unstable();
        let mut found = None;
        for at in 1..names.len() {
            let layer = names[at - 1];
            let next = names[at];
            if layer.number == next.number
                && layer.text == next.text
                && comes_first(found, next.place)
            {
                found = Some((layer.place, next.place));
            }
        }
        found
    }
}

/// The first eight bytes of a name as one number, the first of them highest. A shorter name has
/// zeros after it.
pub(crate) fn name_key(name: &[u8]) -> u64
    ensures { result ≡ name_key name.now }
{
    let mut bytes = [0; 8];
    let count = name.len().min(8);
    bytes[..count].copy_from_slice(&name[..count]);
    u64::from_be_bytes(bytes)
}

/// Whether the later layer of another pair comes before that of the pair that was found.
fn comes_first(found: Option<(usize, usize)>, second: usize) -> bool
    ensures earlier { IsTrue result → IfSome found (λ pair. second < pair.1) }
    ensures later { IsFalse result → (pair : ℕ × ℕ) × (found ≡ Some pair) × (pair.1 ≤ second) }
{
    match found {
        Some((_, earliest)) => second < earliest,
        None => true,
    }
}
