//! Writes a fault as its JSON text.
ghost use Rattle.std.specs.Prelude.{◌≡◌, IfOk, OnOk, string_bytes};
ghost use Rattle.serde_json.specs.View.{view};
ghost use Rattle.mvt_fault.specs.Text.{data_of, text_of, IsInRange, Reads};

mod members;
pub(crate) mod polygons;
pub(crate) mod rules;
pub(crate) mod wire;

use crate::fault::Fault;
use polygons::{polygon_object, ring_object};
use rules::{feature_rule_object, name_object, version_object};
use serde_json::Value;
use std::alloc::{AllocError, Global};
use wire::wire_object;

/// The fault as a JSON text (RFC 8259) with no space, its keys in the order of their bytes. Offsets
/// are in bytes, and they and the ordinals count from 0. The numbers of a point are strings of
/// decimal digits, with a `-` before a negative one.
pub fn fault_text(alloc: Global, fault: &Fault) -> Result<String, AllocError>
    ensures text { IfOk result (λ s. string_bytes s ≡ text_of fault.now) }

    // The text reads back to this fault and to no other.
    ensures holds { IfOk result (λ s. Reads (string_bytes s) fault.now) }
    ensures alone { IfOk result (λ s. (f : Fault) → Reads (string_bytes s) f → f ≡ fault.now) }
{
    fault_object(alloc, fault)?.to_string(alloc)
}

// One function for each kind of object: several in one are too much for the search of proofs.
fn fault_object(alloc: Global, fault: &Fault) -> Result<Value, AllocError>
    ensures object { IfOk result (λ v. view v ≡ data_of fault.now) }

    // `field` is a u32, and a caller's proof sees that only here, where the fault is taken apart.
    ensures in_range { OnOk result (IsInRange fault.now) }
{
    match *fault {
        Fault::Wire {
            code,
            scope,
            at,
            field,
        } => wire_object(alloc, code, scope, at, u64::from(field)),
        Fault::Version { layer } => version_object(alloc, layer),
        Fault::Name { first, second } => name_object(alloc, first, second),
        Fault::Tag {
            code,
            layer,
            feature,
            index,
        } => feature_rule_object(alloc, code.code(), layer, feature, index),
        Fault::Command {
            code,
            layer,
            feature,
            index,
        } => feature_rule_object(alloc, code.code(), layer, feature, index),
        Fault::Ring {
            code,
            layer,
            feature,
            ring,
        } => ring_object(alloc, code.code(), layer, feature, ring),
        Fault::Meeting { .. }
        | Fault::Outside { .. }
        | Fault::HoleInHole { .. }
        | Fault::InPolygon { .. } => polygon_object(alloc, fault),
    }
}
