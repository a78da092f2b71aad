//! The rules on the versions and names of layers, kept layer by layer (Mapbox Vector Tile
//! Specification 2.1, section 4.1).
ghost use Rattle.std.specs.Prelude.{◌≡◌, ◌+◌, IfOk, IsFalse, IsTrue, Some, true};
ghost use Rattle.mvt_rules.specs.Parts.TrueFaults.{IsFaultOfLayers};
ghost use Rattle.mvt_fault.specs.declared.fault.Fault.{Fault};
ghost use Rattle.mvt_rules.specs.Tile.{TileRecord};
ghost use Rattle.mvt_tile.specs.Calls.PassedLayers.{passed, EndsLayers, PassesLayers, IsNextLayer, StoresOfLayers};

use super::layer_names::LayerNames;
use mvt_fault::Fault;
use std::alloc::{AllocError, Global};

/// What is kept of a tile's layers, which are passed in their order up to the first that has
/// another version than 2.
#[derive(Drop)]
pub(crate) struct LayerRules<'a> {
    /// The names of the layers that have version 2.
    names: LayerNames<'a>,
    /// Whether a layer of another version comes after them.
    other_version: bool,
}

impl<'a> LayerRules<'a> {
    /// No layer was passed.
    pub(crate) fn new(alloc: Global) -> LayerRules<'a>
        ensures none { passed result ≡ 0 }
        ensures passes { (tile : TileRecord) → PassesLayers result tile }
    {
        LayerRules {
            names: LayerNames::new(alloc),
            other_version: false,
        }
    }

    /// Passes the next layer, and returns whether it has version 2: another version ends the walk
    /// over the layers. The only error is that memory was refused.
    #[inline(always)]
    pub(crate) fn note(&mut self, version: u32, name: &'a [u8]) -> Result<bool, AllocError>
        ensures count { IfOk result (λ goes_on. IsTrue goes_on
            → passed self.new ≡ passed self.old + 1) }
        ensures passes { IfOk result (λ goes_on. IsTrue goes_on → (tile : TileRecord)
            → PassesLayers self.old tile → IsNextLayer self.old tile version name.now
            → PassesLayers self.new tile) }
        ensures ends { IfOk result (λ goes_on. IsFalse goes_on → (tile : TileRecord)
            → PassesLayers self.old tile → IsNextLayer self.old tile version name.now
            → EndsLayers self.new tile) }
        ensures other { IfOk result (λ goes_on. IsFalse goes_on → self.new.other_version ≡ true) }
    {
        if version != 2 {
            self.other_version = true;
            return Ok(false);
        }
        self.names.add(name)?;
        Ok(true)
    }

    /// Whether the layers, all of which were passed, may have a fault.
    #[inline(always)]
    pub(crate) fn has_fault(self) -> bool
        ensures { IsFalse result → (tile : TileRecord) → EndsLayers self.entry tile
            → (fault : Fault) → ¬ IsFaultOfLayers tile fault }
    {
        match self.names.first_repeated() {
            Some(_) => true,
            None => self.other_version,
        }
    }

    /// Stores the first fault of the layers, all of which were passed, or all up to the first of another
    /// version, in place of what was found before; where they have none, that stays.
    #[inline(always)]
    pub(crate) fn find_fault(self, found: &mut Option<Fault>)
        ensures { StoresOfLayers self.entry found.old found.new }
    {
        let count = self.names.len();
        match self.names.first_repeated() {
            Some((first, second)) => store_name(found, first, second),
            None if self.other_version => store_version(found, count),
            None => {}
        }
    }
}

/// Stores that two layers have one name. (A fault has room of its own where it is made, which the
/// caller doesn't pay for so.)
#[cold]
#[inline(never)]
fn store_name(found: &mut Option<Fault>, first: usize, second: usize)
    ensures { found.new ≡ Some (Fault.Name first second) }
{
    *found = Some(Fault::Name { first, second });
}

/// Stores that a layer has another version.
#[cold]
#[inline(never)]
fn store_version(found: &mut Option<Fault>, layer: usize)
    ensures { found.new ≡ Some (Fault.Version layer) }
{
    *found = Some(Fault::Version { layer });
}
