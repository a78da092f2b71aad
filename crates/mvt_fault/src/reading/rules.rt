//! Faults of layers, tags and geometry commands, read of JSON objects.

ghost use Rattle.std.specs.Prelude.{IfOk};
ghost use Rattle.serde_json.specs.View.{view};
ghost use Rattle.mvt_fault.specs.Code.{tag_code, command_code};
ghost use Rattle.mvt_fault.specs.Calls.Candidate.{HasCode, IsCandidate};

use super::candidate::{Candidate, ordinal_at};
use crate::command::CommandCode;
use crate::fault::Fault;
use crate::tag::TagCode;
use crate::text::rules::{feature_rule_object, name_object, version_object};
use serde_json::Value;
use std::alloc::{AllocError, Global};

pub(super) fn version_candidate(alloc: Global, value: &Value) -> Result<Candidate, AllocError>
    requires { HasCode (view value.now) 201 }
    ensures { IfOk result (IsCandidate (view value.now)) }
{
    let layer = ordinal_at(value, "layer");
    Ok(Candidate {
        object: version_object(alloc, layer)?,
        fault: Some(Fault::Version { layer }),
    })
}

pub(super) fn name_candidate(alloc: Global, value: &Value) -> Result<Candidate, AllocError>
    requires { HasCode (view value.now) 202 }
    ensures { IfOk result (IsCandidate (view value.now)) }
{
    let first = ordinal_at(value, "first");
    let second = ordinal_at(value, "second");
    Ok(Candidate {
        object: name_object(alloc, first, second)?,
        fault: Some(Fault::Name { first, second }),
    })
}

pub(super) fn tag_candidate(
    alloc: Global,
    value: &Value,
    code: TagCode,
) -> Result<Candidate, AllocError>
    requires { HasCode (view value.now) (tag_code code) }
    ensures { IfOk result (IsCandidate (view value.now)) }
{
    let layer = ordinal_at(value, "layer");
    let feature = ordinal_at(value, "feature");
    let index = ordinal_at(value, "index");
    Ok(Candidate {
        object: feature_rule_object(alloc, code.code(), layer, feature, index)?,
        fault: Some(Fault::Tag {
            code,
            layer,
            feature,
            index,
        }),
    })
}

pub(super) fn command_candidate(
    alloc: Global,
    value: &Value,
    code: CommandCode,
) -> Result<Candidate, AllocError>
    requires { HasCode (view value.now) (command_code code) }
    ensures { IfOk result (IsCandidate (view value.now)) }
{
    let layer = ordinal_at(value, "layer");
    let feature = ordinal_at(value, "feature");
    let index = ordinal_at(value, "index");
    Ok(Candidate {
        object: feature_rule_object(alloc, code.code(), layer, feature, index)?,
        fault: Some(Fault::Command {
            code,
            layer,
            feature,
            index,
        }),
    })
}
