//! The members of JSON objects.

ghost use Rattle.std.specs.Prelude.{◌≡◌, IfOk, OnOk};
ghost use Rattle.serde_json.specs.Data.{no_members, put as with_member, string};
ghost use Rattle.serde_json.specs.View.{members_view};
ghost use Rattle.mvt_fault.specs.Calls.Members.{with_numbers};
ghost use Rattle.mvt_fault.specs.Text.{whole_number};

use serde_json::{Map, Value, put};
use std::alloc::{AllocError, Global};

/// Members of an object: numbers at their keys.
pub(crate) fn members_of(
    alloc: Global,
    numbers: &[(&str, u64)],
) -> Result<Map<String, Value>, AllocError>
    ensures { IfOk result (λ map. members_view map.entries ≡ with_numbers no_members numbers.now) }
{
    let mut map = Map::new(alloc);
    for (key, number) in numbers {
        add_number(&mut map, alloc, *key, *number)?;
    }
    Ok(map)
}

fn add_number(
    map: &mut Map<String, Value>,
    alloc: Global,
    key: &str,
    number: u64,
) -> Result<(), AllocError>
    ensures { OnOk result (members_view map.new.entries
        ≡ with_member key.now (whole_number number) (members_view map.old.entries)) }
{
    put(map, alloc, key, Value::from(number))
}

/// One more member, a text at its key.
pub(crate) fn add_text(
    map: &mut Map<String, Value>,
    alloc: Global,
    key: &str,
    text: &str,
) -> Result<(), AllocError>
    ensures { OnOk result (members_view map.new.entries
        ≡ with_member key.now (string text.now) (members_view map.old.entries)) }
{
    put(map, alloc, key, Value::try_from_str(alloc, text)?)
}
