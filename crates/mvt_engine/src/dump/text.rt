//! The text of a tile's dump.
ghost use Rattle.std.specs.Prelude.{◌≡◌, ◌++◌, codes, decimal, IfOk, OnOk, string_bytes};
ghost use Rattle.mvt_engine.specs.Dump.{dump_text, layer_data};
ghost use Rattle.mvt_tile.specs.View.{layer_of, tile_of};

use super::part::{Part, push_list};
use super::value::push_string;
use mvt_tile::{Layer, Tile};
use std::alloc::{AllocError, Global};
use std::fmt::Write;

/// A tile as one JSON object, with no space and with the keys of each object in the order of their
/// bytes. It is written straight from the record: of memory it takes the text, and room for one of
/// the tile's strings at a time.
pub fn dump_text(alloc: Global, tile: &Tile) -> Result<String, AllocError>
    ensures { IfOk result (λ text. string_bytes text ≡ dump_text (tile_of tile.now)) }
{
    let mut text = String::from_str(alloc, "{\"layers\":")?;
    push_list(alloc, &mut text, &tile.layers)?;
    text.push_str("}")?;
    Ok(text)
}

impl<'a> Part for Layer<'a> {
    ghost part_data = { λ layer. layer_data (layer_of layer) };

    fn push_to(&self, alloc: Global, text: &mut String) -> Result<(), AllocError> {
        push_extent(text, self.extent)?;
        push_list(alloc, text, &self.features)?;
        text.push_str(",\"keys\":")?;
        push_list(alloc, text, &self.keys)?;
        text.push_str(",\"name\":")?;
        push_string(alloc, text, self.name)?;
        text.push_str(",\"values\":")?;
        push_list(alloc, text, &self.values)?;
        let version = self.version;
        write!(text, ",\"version\":{version}}}")
    }
}

/// Writes the beginning of a layer, up to its features.
fn push_extent(text: &mut String, extent: u32) -> Result<(), AllocError>
    ensures { OnOk result (string_bytes text.new
        ≡ string_bytes text.old ++ (codes "{\"extent\":" ++
        (decimal extent ++ codes ",\"features\":"))) }
{
    write!(text, "{{\"extent\":{extent},\"features\":")
}
