//! Advice on a tile: what may be a mistake in it, though no rule forbids it.
ghost use Rattle.std.specs.Prelude.{◌≡◌, [], ◌∷◌, ◌++◌, ℕ, List, IfOk, OnOk};
ghost use Rattle.mvt_tile.specs.Advice.{ArePairs, IsAdvice, IsLayerAdvice};
ghost use Rattle.mvt_tile.specs.Calls.Equal.{StandsAt, equal_advice};
ghost use Rattle.mvt_tile.specs.View.{layer_of, tile_of};

mod repeated;

use crate::record::{Layer, Tile};
use repeated::{first_equal_ids, first_equal_keys};
use std::alloc::{AllocError, Global};

/// What may be a mistake in a tile, though no rule forbids it. Ordinals count from 0.
#[derive(Clone, Copy, Debug, PartialEq, Eq)]
pub enum Advice {
    /// The tile has no layer.
    NoLayer,
    /// A layer has no feature (Mapbox Vector Tile Specification 2.1, section 4.1).
    NoFeature {
        /// The layer's ordinal in the tile.
        layer: usize,
    },
    /// Two keys of a layer are the same, byte for byte (section 4.1).
    EqualKey {
        /// The layer's ordinal in the tile.
        layer: usize,
        /// The ordinal of the earliest key that is the same.
        first: usize,
        /// The ordinal of the other key.
        second: usize,
    },
    /// Two features of a layer have one id (section 4.2).
    EqualId {
        /// The layer's ordinal in the tile.
        layer: usize,
        /// The ordinal of the earliest feature with this id.
        first: usize,
        /// The ordinal of the other feature.
        second: usize,
    },
}

/// The advice on a tile. A tile without layers has that alone. Otherwise it goes layer by layer:
/// that a layer has no feature; then, for each key in order that has an equal one before it, the
/// first such; then the same of the ids of its features, of which a feature without an id has no
/// part. The only error is that memory was refused.
pub fn advise(alloc: Global, tile: &Tile<'_>) -> Result<Vec<Advice>, AllocError>
    ensures { IfOk result (λ advice. IsAdvice (tile_of tile.now) advice.items) }
{
    let mut advice = Vec::new(alloc);
    if tile.layers.is_empty() {
        advice.push(Advice::NoLayer)?;
        return Ok(advice);
    }
    for (number, layer) in tile.layers.iter().enumerate() {
        advise_layer(alloc, &mut advice, layer, number)?;
    }
    Ok(advice)
}

/// Adds the advice on a layer, which has this ordinal. The only error is that memory was refused.
fn advise_layer(
    alloc: Global,
    advice: &mut Vec<Advice>,
    layer: &Layer<'_>,
    number: usize,
) -> Result<(), AllocError>
    ensures { OnOk result ((own : List Advice) × IsLayerAdvice number (layer_of layer.now) own
        × (advice.new.items ≡ advice.old.items ++ own)) }
{
    if layer.features.is_empty() {
        advice.push(Advice::NoFeature { layer: number })?;
    }
    push_equal(
        advice,
        &first_equal_keys(alloc, layer)?,
        Equal::Keys,
        number,
    )?;
    push_equal(advice, &first_equal_ids(alloc, layer)?, Equal::Ids, number)
}

/// What is equal.
#[derive(Clone, Copy)]
enum Equal {
    /// Keys of a layer.
    Keys,
    /// Ids of a layer's features.
    Ids,
}

impl Equal {
    /// The advice on two of a layer's places.
    fn advice(self, layer: usize, first: usize, second: usize) -> Advice
        ensures { equal_advice self layer ((first, second) ∷ []) ≡ result ∷ [] }
    {
        match self {
            Equal::Keys => Advice::EqualKey {
                layer,
                first,
                second,
            },
            Equal::Ids => Advice::EqualId {
                layer,
                first,
                second,
            },
        }
    }
}

/// Adds the advice on each place of a layer at which another one stands. The only error is that
/// memory was refused.
fn push_equal(
    advice: &mut Vec<Advice>,
    firsts: &[Option<usize>],
    equal: Equal,
    layer: usize,
) -> Result<(), AllocError>
    ensures { OnOk result ((pairs : List (ℕ × ℕ)) × ArePairs (StandsAt firsts.now) pairs
        × (advice.new.items ≡ advice.old.items ++ equal_advice equal layer pairs)) }
{
    for (second, &place) in firsts.iter().enumerate() {
        if let Some(first) = place {
            advice.push(equal.advice(layer, first, second))?;
        }
    }
    Ok(())
}
