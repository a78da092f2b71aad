//! What the rules need to know of a layer (Mapbox Vector Tile Specification 2.1, section 4.1).
ghost use Rattle.std.specs.Prelude.{◌+◌, ◌<◌, ◌^◌, List, ◌∷◌, [], ◌++◌};
ghost use Rattle.mvt_wire.specs.Field.{Entry, entry_of};
ghost use Rattle.mvt_rules.specs.Parts.Fields.{FitsRule};
ghost use Rattle.mvt_wire.specs.declared.schema.Message.TheVariants as messages;
ghost use Rattle.mvt_tile.specs.Calls.Reading.{GivesSummary};

use mvt_wire::Field;
use mvt_wire::field_number::{KEYS, LAYER_NAME, VALUES, VERSION};
use mvt_wire::payload::{bytes_in, number_in};

/// What the rules need to know of a layer: its version, its name, and how many keys and values it
/// has.
#[derive(Clone, Copy)]
pub(crate) struct LayerSummary<'a> {
    pub(crate) version: u32,
    pub(crate) name: &'a [u8],
    pub(crate) keys: usize,
    pub(crate) values: usize,
}

/// The summary of a layer of which no field was passed.
pub(crate) fn empty_summary<'a>() -> LayerSummary<'a>
    ensures { GivesSummary [] result }
{
    LayerSummary {
        version: 0,
        name: &[],
        keys: 0,
        values: 0,
    }
}

/// Adds the content of one more field of the layer.
pub(crate) fn add_field<'a>(summary: &mut LayerSummary<'a>, field: Field<'a>)
    requires fits { FitsRule messages.Layer (entry_of field) }
    requires keys { summary.old.keys + 1 < 2 ^ 64 }
    requires values { summary.old.values + 1 < 2 ^ 64 }
    ensures { (entries : List Entry) → GivesSummary entries summary.old
        → GivesSummary (entries ++ entry_of field.entry ∷ []) summary.new }
{
    match field.number {
        LAYER_NAME => summary.name = bytes_in(field.body),
        KEYS => summary.keys += 1,
        VALUES => summary.values += 1,
        VERSION => summary.version = number_in(field.body) as u32,
        _ => {}
    }
}
