//! The parts of a tile as JSON, written one after another into one text.
ghost use Rattle.std.specs.Prelude.{◌≡◌, [], ◌++◌, codes, if◌then◌else◌, OnOk, string_bytes};
ghost use Rattle.serde_json.specs.Data.{Data};
ghost use Rattle.serde_json.specs.Written.{compact_text};
ghost use Rattle.mvt_fault.specs.Text.{whole_number};
ghost use Rattle.mvt_engine.specs.Dump.{list_data};

use std::alloc::{AllocError, Global};
use std::fmt::Write;

/// What is written as a part of a JSON text: a part of a tile, a piece of advice on one, or what
/// became of a feature.
pub trait Part {
    // the part as JSON
    ghost part_data: { Self → Data };

    /// Writes the part after a text, with no space. What is taken of `alloc` besides the text's own
    /// growth is for one string at a time.
    fn push_to(&self, alloc: Global, text: &mut String) -> Result<(), AllocError>
        ensures { OnOk result (string_bytes text.new
            ≡ string_bytes text.old ++ compact_text (part_data self.now)) };
}

/// Writes a list as an array.
pub fn push_list<P: Part>(alloc: Global, text: &mut String, list: &[P]) -> Result<(), AllocError>
    ensures { OnOk result (string_bytes text.new
        ≡ string_bytes text.old ++ compact_text (list_data P.part_data list.now)) }
{
    text.push_str("[")?;
    let mut is_first = true;
    'members: for part in list {
        push_member(alloc, text, part, is_first)?;
        is_first = false;
    }
    text.push_str("]")
}

/// Writes a member of a list after those before it.
fn push_member<P: Part>(
    alloc: Global,
    text: &mut String,
    part: &P,
    is_first: bool,
) -> Result<(), AllocError>
    ensures { OnOk result (string_bytes text.new
        ≡ string_bytes text.old ++ (if is_first then [] else codes ",") ++ compact_text
        (P.part_data part.now)) }
{
    if !is_first {
        text.push_str(",")?;
    }
    part.push_to(alloc, text)
}

impl Part for u32 {
    ghost part_data = { whole_number };

    fn push_to(&self, _alloc: Global, text: &mut String) -> Result<(), AllocError> {
        write!(text, "{self}")
    }
}
