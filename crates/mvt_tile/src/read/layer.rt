ghost use Rattle.std.specs.Prelude.{List, ◌∷◌, [], ◌++◌, IfOk, OnOk};
ghost use Rattle.mvt_wire.specs.Field.{Entry, entry_of};
ghost use Rattle.mvt_rules.specs.Tile.{FeatureRecord, IsFeature, ValueRecord, IsValue, LayerRecord, IsLayer};
ghost use Rattle.mvt_rules.specs.Parts.Fields.{FitsRule};
ghost use Rattle.mvt_wire.specs.declared.schema.Message.TheVariants as messages;
ghost use Rattle.mvt_wire.specs.Calls.Scope.{Embeds};
ghost use Rattle.mvt_wire.specs.Embedded.{LiesIn, Holds};
ghost use Rattle.mvt_tile.specs.Calls.Reading.{GivesLayer};
ghost use Rattle.mvt_tile.specs.View.{layer_of};

use super::feature::read_feature;
use super::value::read_value;
use crate::lists::push_item;
use crate::record::Layer;
use mvt_wire::field_number::{EXTENT, FEATURES, KEYS, LAYER_NAME, VALUES, VERSION};
use mvt_wire::payload::{number_in, payload_span, text_in};
use mvt_wire::{Field, Fields, Part};
use std::alloc::{AllocError, Global};

/// The extent of a layer that has no field for it (Mapbox Vector Tile Specification 2.1,
/// `vector_tile.proto`).
const DEFAULT_EXTENT: u32 = 4096;

/// The layer that a part of the bytes holds (section 4.1).
pub(crate) fn read_layer(alloc: Global, part: Part<'_>) -> Result<Layer<'_>, AllocError>
    requires { (layer : LayerRecord) × Holds IsLayer part layer }
    ensures { IfOk result (λ layer. Holds IsLayer part.entry (layer_of layer)) }
{
    let mut layer = Layer {
        version: 0,
        name: "",
        features: Vec::new(alloc),
        keys: Vec::new(alloc),
        values: Vec::new(alloc),
        extent: DEFAULT_EXTENT,
    };
    let mut fields = Fields::new(part.bytes, part.from, part.to);
    'walk: while let Some(field) = fields.next_whole() {
        add_field(alloc, part.bytes, &mut layer, field)?;
    }
    Ok(layer)
}

/// Adds the content of one more field.
fn add_field<'a>(
    alloc: Global,
    bytes: &'a [u8],
    layer: &mut Layer<'a>,
    field: Field<'a>,
) -> Result<(), AllocError>
    requires fits { FitsRule messages.Layer (entry_of field) }
    requires inside { LiesIn bytes.now (entry_of field) }
    requires feature { Embeds 2 (λ span. (feature : FeatureRecord)
        × IsFeature bytes.now span feature) (entry_of field) }
    requires value { Embeds 4 (λ span. (value : ValueRecord)
        × IsValue bytes.now span value) (entry_of field) }
    ensures { OnOk result ((entries : List Entry)
        → GivesLayer bytes.entry.now entries (layer_of layer.old)
        → GivesLayer bytes.entry.now (entries ++ entry_of field.entry ∷ []) (layer_of layer.new)) }
{
    match field.number {
        LAYER_NAME => layer.name = text_in(field.body),
        FEATURES => {
            let (from, to) = payload_span(field.body);
            let feature = read_feature(alloc, Part { bytes, from, to })?;
            return push_item(&mut layer.features, feature);
        }
        KEYS => return push_item(&mut layer.keys, text_in(field.body)),
        VALUES => {
            let (from, to) = payload_span(field.body);
            return push_item(&mut layer.values, read_value(Part { bytes, from, to }));
        }
        EXTENT => layer.extent = number_in(field.body) as u32,
        VERSION => layer.version = number_in(field.body) as u32,
        _ => {}
    }
    Ok(())
}
