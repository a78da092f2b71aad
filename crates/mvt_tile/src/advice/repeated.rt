//! The equal keys of a layer, and the equal ids of its features.
ghost use Rattle.std.specs.Prelude.{IfOk};
ghost use Rattle.mvt_tile.specs.Advice.{KeyAt, IdAt};
ghost use Rattle.mvt_tile.specs.Calls.Equal.{AreFirstPlaces};
ghost use Rattle.mvt_tile.specs.View.{layer_of};

use crate::first_places::{Held, first_places};
use crate::record::Layer;
use crate::rules::names::name_key;
use std::alloc::{AllocError, Global};

/// For each key of a layer the first one that is the same, where that comes before it. A list that
/// is shorter than the keys says nothing of those after its end. The only error is that memory was
/// refused.
pub(crate) fn first_equal_keys(
    alloc: Global,
    layer: &Layer<'_>,
) -> Result<Vec<Option<usize>>, AllocError>
    ensures { IfOk result (λ firsts. AreFirstPlaces (KeyAt (layer_of layer.now)) firsts.items) }
{
    if layer.keys.len() < 2 {
        return Ok(Vec::new(alloc));
    }
    let mut held = Vec::with_capacity(alloc, layer.keys.len())?;
    for (place, key) in layer.keys.iter().enumerate() {
        let text = key.as_bytes();
        let number = name_key(text);
        held.push(Held {
            number,
            text,
            place,
        })?;
    }
    first_places(alloc, held, layer.keys.len())
}

/// The same of a layer's features and their ids. A feature without an id has no part in it.
pub(crate) fn first_equal_ids(
    alloc: Global,
    layer: &Layer<'_>,
) -> Result<Vec<Option<usize>>, AllocError>
    ensures { IfOk result (λ firsts. AreFirstPlaces (IdAt (layer_of layer.now)) firsts.items) }
{
    let mut held = Vec::new(alloc);
    for (place, feature) in layer.features.iter().enumerate() {
        if let Some(number) = feature.id {
            held.push(Held {
                number,
                text: &[],
                place,
            })?;
        }
    }
    first_places(alloc, held, layer.features.len())
}
