//! Reads a fault from its JSON text.
ghost use Rattle.std.specs.Prelude.{◌≡◌, ◌≤◌, ◌≢◌, ◌↔◌, IfOk, IfErr, IfSome, Result, Ok, Err, None};
ghost use Rattle.serde_json.specs.Data.{depth};
ghost use Rattle.serde_json.specs.Read.{max_depth};
ghost use Rattle.serde_json.specs.View.{view};
ghost use Rattle.mvt_fault.specs.Text.{Reads};
ghost use Rattle.mvt_fault.specs.Calls.Candidate.{IsAnswerTo, HasCode, IsCandidate, HasCandidate, HasNoBareCode};
ghost use Rattle.mvt_fault.specs.Reading.{IsNoJson, HasOtherShape, HasOtherRange};

mod candidate;
mod causes;
mod decimal;
mod polygons;
mod rules;
#[cfg(test)]
mod tests;
mod wire;

use crate::fault::Fault;
use candidate::Candidate;
use causes::{command_code, ring_code, tag_code, wire_code};
use polygons::{
    hole_in_hole_candidate, in_polygon_candidate, meeting_candidate, outside_candidate,
    ring_candidate,
};
use rules::{command_candidate, name_candidate, tag_candidate, version_candidate};
use serde_json::Value;
use std::alloc::{AllocError, Global};
use wire::wire_candidate;

/// Why bytes were not read as a fault's text.
#[derive(Clone, Copy, Debug, PartialEq, Eq)]
pub enum FaultTextError {
    /// The bytes are no JSON text.
    Json,
    /// The JSON value isn't an object with exactly the keys of its code, each with a value of the
    /// key's type.
    Shape,
    /// The value has the shape of a fault, and a number of it is out of range.
    Range,
    /// Memory was refused.
    Memory,
}

impl From<AllocError> for FaultTextError {
    ghost use Rattle.mvt_fault.specs.declared.reading.FaultTextError.TheVariants.{Memory};

    ghost from_gives = { λ _ error. error ≡ Memory };

    fn from(_: AllocError) -> FaultTextError {
        FaultTextError::Memory
    }
}

/// The fault that the bytes are a text of. Members may come in any order and with any space, as
/// JSON (RFC 8259) has it, and of members with one key the last counts.
pub fn fault_from_text(alloc: Global, bytes: &[u8]) -> Result<Fault, FaultTextError>
    ensures ok { IfOk result (λ f. Reads bytes.now f) }
    ensures alone { IfOk result (λ f. (other : Fault) → Reads bytes.now other → other ≡ f) }
    ensures refused { IfErr result (λ e. e ≢ FaultTextError.Memory → (f : Fault)
        → ¬ Reads bytes.now f) }

    // Where memory isn't refused, each error comes exactly where it is due.
    ensures json { result ≢ Err FaultTextError.Memory
        → (result ≡ Err FaultTextError.Json) ↔ IsNoJson bytes.now }
    ensures shape { result ≢ Err FaultTextError.Memory
        → (result ≡ Err FaultTextError.Shape) ↔ HasOtherShape bytes.now }
    ensures range { result ≢ Err FaultTextError.Memory
        → (result ≡ Err FaultTextError.Range) ↔ HasOtherRange bytes.now }
{
    match Value::from_slice(alloc, bytes) {
        Ok(value) => fault_of(alloc, &value),
        Err(error) if error.is_memory() => Err(FaultTextError::Memory),
        Err(_) => Err(FaultTextError::Json),
    }
}

// The candidate is written and compared with the value, so that no other key is let through.
fn fault_of(alloc: Global, value: &Value) -> Result<Fault, FaultTextError>
    requires { depth (view value.now) ≤ max_depth }
    ensures { IsAnswerTo (view value.now) result }
{
    let Some(code) = value.get("code").and_then(Value::as_u64) else {
        return Err(FaultTextError::Shape);
    };
    let Some(candidate) = candidate_of(alloc, value, code)? else {
        return Err(FaultTextError::Shape);
    };
    if value.to_string(alloc)? != candidate.object.to_string(alloc)? {
        return Err(FaultTextError::Shape);
    }
    candidate.fault.ok_or(FaultTextError::Range)
}

fn candidate_of(alloc: Global, value: &Value, number: u64) -> Result<Option<Candidate>, AllocError>
    requires { HasCode (view value.now) number }
    ensures { IfOk result (HasCandidate (view value.now)) }
{
    if let Some(code) = wire_code(number) {
        return Ok(Some(wire_candidate(alloc, value, code)?));
    }
    if let Some(code) = tag_code(number) {
        return Ok(Some(tag_candidate(alloc, value, code)?));
    }
    if let Some(code) = command_code(number) {
        return Ok(Some(command_candidate(alloc, value, code)?));
    }
    if let Some(code) = ring_code(number) {
        return Ok(Some(ring_candidate(alloc, value, code)?));
    }
    uncoded_candidate(alloc, value, number)
}

// Of the faults whose cause has no type of its own.
fn uncoded_candidate(
    alloc: Global,
    value: &Value,
    number: u64,
) -> Result<Option<Candidate>, AllocError>
    requires { HasCode (view value.now) number }
    ensures some { IfOk result (λ o. IfSome o (IsCandidate (view value.now))) }
    ensures none { result ≡ Ok None → HasNoBareCode number }
{
    let candidate = match number {
        201 => version_candidate(alloc, value)?,
        202 => name_candidate(alloc, value)?,
        504 => meeting_candidate(alloc, value)?,
        505 => outside_candidate(alloc, value)?,
        506 => hole_in_hole_candidate(alloc, value)?,
        507 => in_polygon_candidate(alloc, value)?,
        _ => return Ok(None),
    };
    Ok(Some(candidate))
}
