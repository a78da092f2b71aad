//! The faults of versions and names of layers, one of each layer that has any (Mapbox Vector Tile
//! Specification 2.1, section 4.1).
ghost use Rattle.std.specs.Prelude.{◌≡◌, ◌↔◌, ℕ, List, length, Some, slice_get, IfOk};
ghost use Rattle.mvt_rules.specs.Tile.{TileRecord};
ghost use Rattle.mvt_tile.specs.Advice.{IsRepetition};
ghost use Rattle.mvt_tile.specs.Calls.Equal.{AreFirstPlaces};
ghost use Rattle.mvt_tile.specs.Calls.Gathered.{AreGatheredLayers, AreSummaries, FindsOfLayer, NameAt};
ghost use Rattle.mvt_tile.specs.declared.rules.summary.LayerSummary.{LayerSummary};

use super::names::name_key;
use super::summary::LayerSummary;
use crate::first_places::{Held, first_places};
use mvt_fault::Fault;
use std::alloc::{AllocError, Global};

/// The first fault of each of a tile's layers that has one: another version than 2, or else the
/// name of an earlier layer. The only error is that memory was refused.
pub(crate) fn faults_of_layers(
    alloc: Global,
    layers: &[LayerSummary<'_>],
) -> Result<Vec<Fault>, AllocError>
    ensures { IfOk result (λ faults. (tile : TileRecord) → AreSummaries layers.now tile
        → AreGatheredLayers tile (length tile.layers) faults.items) }
{
    let firsts = first_equal_names(alloc, layers)?;
    let mut faults = Vec::new(alloc);
    for (layer, summary) in layers.iter().enumerate() {
        let first = firsts.get(layer).copied().flatten();
        if let Some(fault) = fault_of_layer(layer, summary.version, first) {
            faults.push(fault)?;
        }
    }
    Ok(faults)
}

/// The first fault of one layer, by its version and the first earlier layer that has its name.
fn fault_of_layer(layer: usize, version: u32, first: Option<usize>) -> Option<Fault>
    ensures { (layers : List LayerSummary) (tile : TileRecord) → AreSummaries layers tile
        → (summary : LayerSummary) → slice_get layers layer ≡ Some summary
        → version ≡ summary.version
        → ((other : ℕ) → (first ≡ Some other) ↔ IsRepetition (NameAt layers) other layer)
        → FindsOfLayer tile layer result }
{
    if version != 2 {
        return Some(Fault::Version { layer });
    }
    match first {
        Some(first) => Some(Fault::Name {
            first,
            second: layer,
        }),
        None => None,
    }
}

/// For each of a tile's layers the first one that has its name, where that comes before it. A list
/// that is shorter than the layers says nothing of those after its end. The only error is that
/// memory was refused.
fn first_equal_names(
    alloc: Global,
    layers: &[LayerSummary<'_>],
) -> Result<Vec<Option<usize>>, AllocError>
    ensures { IfOk result (λ firsts. AreFirstPlaces (NameAt layers.now) firsts.items) }
{
    if layers.len() < 2 {
        return Ok(Vec::new(alloc));
    }
    let mut held = Vec::with_capacity(alloc, layers.len())?;
    for (place, summary) in layers.iter().enumerate() {
        let text = summary.name;
        let number = name_key(text);
        held.push(Held {
            number,
            text,
            place,
        })?;
    }
    first_places(alloc, held, layers.len())
}
