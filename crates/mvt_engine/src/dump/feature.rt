//! The features of a layer as JSON.
ghost use Rattle.std.specs.Prelude.{◌≡◌, ◌++◌, OnOk, string_bytes};
ghost use Rattle.serde_json.specs.Written.{compact_text};
ghost use Rattle.mvt_engine.specs.Dump.{feature_data, id_data};
ghost use Rattle.mvt_tile.specs.View.{feature_of, kind_number};

use super::part::{Part, push_list};
use mvt_tile::{Feature, Kind};
use std::alloc::{AllocError, Global};
use std::fmt::Write;

impl Part for Feature {
    ghost part_data = { λ feature. feature_data (feature_of feature) };

    fn push_to(&self, alloc: Global, text: &mut String) -> Result<(), AllocError> {
        text.push_str("{\"geometry\":")?;
        push_list(alloc, text, &self.geometry)?;
        text.push_str(",\"id\":")?;
        push_id(text, self.id)?;
        text.push_str(",\"tags\":")?;
        push_list(alloc, text, &self.tags)?;
        let kind = number_of(self.kind);
        write!(text, ",\"type\":{kind}}}")
    }
}

/// Writes an id, or null.
fn push_id(text: &mut String, id: Option<u64>) -> Result<(), AllocError>
    ensures { OnOk result (string_bytes text.new
        ≡ string_bytes text.old ++ compact_text (id_data id)) }
{
    match id {
        Some(id) => write!(text, "{id}"),
        None => text.push_str("null"),
    }
}

/// The number of a type.
fn number_of(kind: Kind) -> u8
    ensures { result ≡ kind_number kind }
{
    match kind {
        Kind::Unknown => 0,
        Kind::Point => 1,
        Kind::LineString => 2,
        Kind::Polygon => 3,
    }
}
