//! Wire faults, read of JSON objects.

ghost use Rattle.std.specs.Prelude.{◌≡◌, ℕ, ◌^◌, ◌≤◌, ◌<◌, IfOk, MatchOption};
ghost use Rattle.serde_json.specs.View.{view};
ghost use Rattle.mvt_wire.specs.Code.{code_of};
ghost use Rattle.mvt_fault.specs.Calls.Candidate.{HasCode, IsCandidate};
ghost use Rattle.mvt_fault.specs.Text.{wire_data};

use super::candidate::{Candidate, number_at, ordinal_at, text_at};
use crate::fault::Fault;
use crate::text::wire::wire_object;
use mvt_wire::{Scope, WireCode};
use serde_json::Value;
use std::alloc::{AllocError, Global};

pub(super) fn wire_candidate(
    alloc: Global,
    value: &Value,
    code: WireCode,
) -> Result<Candidate, AllocError>
    requires { HasCode (view value.now) (code_of code) }
    ensures { IfOk result (IsCandidate (view value.now)) }
{
    let scope = scope_of(value);
    let at = ordinal_at(value, "at");
    let field = number_at(value, "field");
    Ok(Candidate {
        object: wire_object(alloc, code, scope, at, field)?,
        fault: wire_fault_in_range(code, scope, at, field),
    })
}

/// The innermost message, by its name and ordinals. Where there is no such name it is the tile,
/// from which the candidate's object differs.
fn scope_of(value: &Value) -> Scope
    ensures { (code : WireCode) (scope : Scope) (at field : ℕ)
        → view value.now ≡ wire_data code scope at field → result ≡ scope }
{
    match text_at(value, "scope") {
        "layer" => Scope::Layer(ordinal_at(value, "layer")),
        "value" => Scope::Value(ordinal_at(value, "layer"), ordinal_at(value, "value")),
        "feature" => Scope::Feature(ordinal_at(value, "layer"), ordinal_at(value, "feature")),
        _ => Scope::Tile,
    }
}

fn wire_fault_in_range(code: WireCode, scope: Scope, at: usize, field: u64) -> Option<Fault>
    ensures { MatchOption result (2 ^ 32 ≤ field) (λ f. (f ≡ Fault.Wire code scope at field)
        × (field < 2 ^ 32)) }
{
    let field = u32::try_from(field).ok()?;
    Some(Fault::Wire {
        code,
        scope,
        at,
        field,
    })
}
