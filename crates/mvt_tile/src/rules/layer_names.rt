//! The names of a tile's layers, of which there is often one alone.
ghost use Rattle.std.specs.Prelude.{◌≡◌, ◌++◌, ◌∷◌, [], IfNone, IfSome, OnOk, ℕ, length};
ghost use Rattle.mvt_tile.specs.Calls.Names.{IsFirstRepeated, IsRepeated};

use super::names::SeveralNames;
use std::alloc::{AllocError, Global};
use std::marker::Model;

/// The names of a tile's first layers, in their order. One name takes no memory.
#[derive(Drop)]
pub(crate) struct LayerNames<'a> {
    /// The name where there is one alone.
    alone: Option<&'a [u8]>,
    /// The names where they are several.
    several: SeveralNames<'a>,
}

impl<'a> Model for LayerNames<'a> {
    ghost use Rattle.std.specs.Option.{option_map_or};
    ghost use Rattle.std.specs.Prelude.{◌≡◌, ◌∷◌, ℕ, List, [], IfSome};

    ghost Value = { List (List ℕ) };

    ghost view = { λ names. option_map_or (λ name. name.now ∷ []) names.alone names.several };

    ghost invariant = { λ names. IfSome names.alone (λ _. names.several ≡ []) };
}

impl<'a> LayerNames<'a> {
    /// No names. It takes no memory.
    pub(crate) fn new(alloc: Global) -> LayerNames<'a>
        ensures { result ≡ [] }
    {
        LayerNames {
            alone: None,
            several: SeveralNames::new(alloc),
        }
    }

    /// How many names there are.
    pub(crate) fn len(&self) -> usize
        ensures { result ≡ length self.now }
    {
        match self.alone {
            Some(_) => 1,
            None => self.several.len(),
        }
    }

    /// Adds the name of the next layer. The only error is that memory was refused.
    #[inline(always)]
    pub(crate) fn add(&mut self, name: &'a [u8]) -> Result<(), AllocError>
        ensures { OnOk result (self.new ≡ self.old ++ name.now ∷ []) }
    {
        match self.alone {
            Some(first) => {
                self.alone = None;
                self.several.add(first)?;
                self.several.add(name)
            }
            None if self.several.len() == 0 => {
                self.alone = Some(name);
                Ok(())
            }
            None => self.several.add(name),
        }
    }

    /// The ordinals of two layers that have one name: of all such pairs the one with the earliest
    /// second layer.
    #[inline(always)]
    pub(crate) fn first_repeated(self) -> Option<(usize, usize)>
        ensures none { IfNone result ((first second : ℕ) → ¬ IsRepeated self.entry first second) }
        ensures first { IfSome result (λ found. IsFirstRepeated self.entry found.0 found.1) }
    {
        match self.alone {
            Some(_) => None,
            None => self.several.first_repeated(),
        }
    }
}
