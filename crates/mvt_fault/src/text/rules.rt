//! The JSON objects of the faults of layers, tags and geometry commands.

ghost use Rattle.std.specs.Prelude.{◌≡◌, IfOk};
ghost use Rattle.serde_json.specs.View.{view};
ghost use Rattle.mvt_fault.specs.Text.{version_data, name_data, index_data};

use crate::fault::{NAME_CODE, VERSION_CODE};
use crate::text::members::members_of;
use serde_json::Value;
use std::alloc::{AllocError, Global};

pub(crate) fn version_object(alloc: Global, layer: usize) -> Result<Value, AllocError>
    ensures { IfOk result (λ v. view v ≡ version_data layer) }
{
    let members = [("code", u64::from(VERSION_CODE)), ("layer", layer as u64)];
    Ok(Value::Object(members_of(alloc, &members)?))
}

pub(crate) fn name_object(alloc: Global, first: usize, second: usize) -> Result<Value, AllocError>
    ensures { IfOk result (λ v. view v ≡ name_data first second) }
{
    let members = [
        ("code", u64::from(NAME_CODE)),
        ("first", first as u64),
        ("second", second as u64),
    ];
    Ok(Value::Object(members_of(alloc, &members)?))
}

pub(crate) fn feature_rule_object(
    alloc: Global,
    code: u16,
    layer: usize,
    feature: usize,
    index: usize,
) -> Result<Value, AllocError>
    ensures { IfOk result (λ v. view v ≡ index_data code layer feature index) }
{
    let members = [
        ("code", u64::from(code)),
        ("feature", feature as u64),
        ("index", index as u64),
        ("layer", layer as u64),
    ];
    Ok(Value::Object(members_of(alloc, &members)?))
}
