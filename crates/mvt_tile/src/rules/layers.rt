//! The versions and names of layers (Mapbox Vector Tile Specification 2.1, section 4.1).
ghost use Rattle.std.specs.Prelude.{◌≡◌, IfOk, IfNone, IfSome, OnOk};
ghost use Rattle.mvt_fault.specs.Place.{IsLeast};
ghost use Rattle.mvt_rules.specs.Parts.TrueFaults.{IsFaultOfLayers};
ghost use Rattle.mvt_fault.specs.declared.fault.Fault.{Fault};
ghost use Rattle.mvt_tile.specs.Calls.PassedLayers.{passed, EndsLayers, PassesLayers};
ghost use Rattle.mvt_tile.specs.View.{tile_of};

use super::layer_rules::LayerRules;
use crate::record::Tile;
use mvt_fault::Fault;
use std::alloc::{AllocError, Global};

/// The first fault of the layers' versions and names, or None where there is none: a layer with
/// another version than 2, or two layers that have one name, the same byte for byte (section 4.1).
/// The only error is that memory was refused.
pub fn check_layers(alloc: Global, tile: &Tile<'_>) -> Result<Option<Fault>, AllocError>
    ensures none { IfOk result (λ found. IfNone found ((fault : Fault)
        → ¬ IsFaultOfLayers (tile_of tile.now) fault)) }
    ensures least { IfOk result (λ found.
        IfSome found (IsLeast (IsFaultOfLayers (tile_of tile.now)))) }
{
    let mut rules = LayerRules::new(alloc);
    note_layers(tile, &mut rules)?;
    let mut found = None;
    rules.find_fault(&mut found);
    Ok(found)
}

/// Passes the layers of a tile, up to the first that has another version than 2. No layer was passed
/// before. The only error is that memory was refused.
fn note_layers<'a>(tile: &Tile<'a>, rules: &mut LayerRules<'a>) -> Result<(), AllocError>
    requires none { passed rules.old ≡ 0 }
    requires passes { PassesLayers rules.old (tile_of tile.now) }
    ensures { OnOk result (EndsLayers rules.new (tile_of tile.now)) }
{
    for layer in &tile.layers {
        if !rules.note(layer.version, layer.name.as_bytes())? {
            return Ok(());
        }
    }
    Ok(())
}
