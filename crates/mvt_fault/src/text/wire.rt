//! The JSON objects of wire faults.

ghost use Rattle.std.specs.Prelude.{◌≡◌, IfOk, codes};
ghost use Rattle.serde_json.specs.Data.{no_members, object, put, string};
ghost use Rattle.serde_json.specs.View.{view};
ghost use Rattle.mvt_fault.specs.Calls.Members.{with_numbers};
ghost use Rattle.mvt_fault.specs.Text.{wire_data};

use crate::text::members::{add_text, members_of};
use mvt_wire::{Scope, WireCode};
use serde_json::Value;
use std::alloc::{AllocError, Global};

pub(crate) fn wire_object(
    alloc: Global,
    code: WireCode,
    scope: Scope,
    at: usize,
    field: u64,
) -> Result<Value, AllocError>
    ensures { IfOk result (λ v. view v ≡ wire_data code scope at field) }
{
    let at = ("at", at as u64);
    let code = ("code", u64::from(code.code()));
    let field = ("field", field);
    match scope {
        Scope::Tile => scope_object(alloc, "tile", &[at, code, field]),
        Scope::Layer(layer) => {
            let layer = ("layer", layer as u64);
            scope_object(alloc, "layer", &[at, code, field, layer])
        }
        Scope::Value(layer, value) => {
            let (layer, value) = (("layer", layer as u64), ("value", value as u64));
            scope_object(alloc, "value", &[at, code, field, layer, value])
        }
        Scope::Feature(layer, feature) => {
            let (layer, feature) = (("layer", layer as u64), ("feature", feature as u64));
            scope_object(alloc, "feature", &[at, code, feature, field, layer])
        }
    }
}

/// The object of these numbers and of a scope's name.
fn scope_object(alloc: Global, scope: &str, numbers: &[(&str, u64)]) -> Result<Value, AllocError>
    ensures { IfOk result (λ v.
        view v ≡ object (put (codes "scope") (string scope.now)
        (with_numbers no_members numbers.now))) }
{
    let mut map = members_of(alloc, numbers)?;
    add_text(&mut map, alloc, "scope", scope)?;
    Ok(Value::Object(map))
}
