//! A tile's records, read from its bytes.
ghost use Rattle.std.specs.Prelude.{List, ◌∷◌, [], ◌++◌, map, IfOk, IfErr, OnOk};
ghost use Rattle.mvt_wire.specs.Embedded.{LiesIn};
ghost use Rattle.mvt_wire.specs.Field.{Entry, entry_of};
ghost use Rattle.mvt_rules.specs.Tile.{TileRecord, IsTile, LayerRecord, IsLayer};
ghost use Rattle.mvt_rules.specs.Parts.Fields.{FitsRule};
ghost use Rattle.mvt_wire.specs.declared.schema.Message.TheVariants as messages;
ghost use Rattle.mvt_tile.specs.ReadFault.{IsReadFault};
ghost use Rattle.mvt_wire.specs.Calls.Scope.{Embeds};
ghost use Rattle.mvt_tile.specs.Calls.Reading.{GivesTile};
ghost use Rattle.mvt_tile.specs.View.{layer_of, tile_of};

mod feature;
mod layer;
mod value;

use crate::lists::push_item;
use crate::record::{Layer, Tile};
use crate::wire::wire_fault;
use layer::read_layer;
use mvt_fault::Fault;
use mvt_wire::field_number::LAYERS;
use mvt_wire::payload::payload_span;
use mvt_wire::{Field, Fields, Part};
use std::alloc::{AllocError, Global};

/// Why a tile wasn't read.
#[derive(Clone, Copy, Debug, PartialEq, Eq)]
pub enum ReadFault {
    /// The bytes are no tile. Of all their wire faults this has the least place.
    Wire(Fault),
    /// Memory was refused. Nothing is taken for bytes that are no tile.
    Memory,
}

/// The tile that the bytes are (Mapbox Vector Tile Specification 2.1, section 4). Texts and the
/// bytes of floats are borrowed. Each message is walked once for its faults, and once for its
/// record; nothing is reserved by a length or a count that was read.
///
/// Errors: `Wire` with the first wire fault, where the bytes are no tile; `Memory` where a tile's
/// record found no memory.
pub fn read_tile(alloc: Global, bytes: &[u8]) -> Result<Tile<'_>, ReadFault>
    ensures tile { IfOk result (λ tile. IsTile bytes.now (tile_of tile)) }
    ensures fault { IfErr result (IsReadFault bytes.now) }
{
    if let Some(fault) = wire_fault(bytes) {
        return Err(ReadFault::Wire(fault));
    }
    match read_layers(alloc, bytes) {
        Ok(layers) => Ok(Tile { layers }),
        Err(_refused) => Err(ReadFault::Memory),
    }
}

/// The layers of a tile.
fn read_layers(alloc: Global, bytes: &[u8]) -> Result<Vec<Layer<'_>>, AllocError>
    requires { (tile : TileRecord) × IsTile bytes.now tile }
    ensures { IfOk result (λ layers.
        IsTile bytes.now (record { layers = map layer_of layers.items })) }
{
    let mut layers = Vec::new(alloc);
    let mut fields = Fields::new(bytes, 0, bytes.len());
    'walk: while let Some(field) = fields.next_whole() {
        add_field(alloc, bytes, &mut layers, field)?;
    }
    Ok(layers)
}

/// Adds the layer that one more field holds.
fn add_field<'a>(
    alloc: Global,
    bytes: &'a [u8],
    layers: &mut Vec<Layer<'a>>,
    field: Field<'a>,
) -> Result<(), AllocError>
    requires fits { FitsRule messages.Tile (entry_of field) }
    requires inside { LiesIn bytes.now (entry_of field) }
    requires layer { Embeds 3 (λ span. (layer : LayerRecord)
        × IsLayer bytes.now span layer) (entry_of field) }
    ensures { OnOk result ((entries : List Entry)
        → GivesTile bytes.entry.now entries (record { layers = map layer_of layers.old.items })
        → GivesTile bytes.entry.now (entries ++ entry_of field.entry ∷ [])
        (record { layers = map layer_of layers.new.items })) }
{
    if field.number == LAYERS {
        let (from, to) = payload_span(field.body);
        return push_item(layers, read_layer(alloc, Part { bytes, from, to })?);
    }
    Ok(())
}
