//! Faults of rings and polygons, read of JSON objects.

ghost use Rattle.std.specs.Prelude.{◌≡◌, ℕ, Some, IfOk, MatchOption, codes};
ghost use Rattle.serde_json.specs.Data.{Data, string};
ghost use Rattle.serde_json.specs.Find.{get};
ghost use Rattle.serde_json.specs.View.{view};
ghost use Rattle.mvt_fault.specs.Code.{ring_code};
ghost use Rattle.mvt_fault.specs.Calls.Candidate.{HasCode, IsCandidate};
ghost use Rattle.mvt_fault.specs.Reading.{HasDecimalForm, IsOutOfRange, StandsFor};
ghost use Rattle.mvt_fault.specs.Text.{edge_data, meeting_parts, whole_number, IsInRange};

use super::candidate::{Candidate, ordinal_at};
use super::decimal::{decimal_at, number_of};
use crate::fault::Fault;
use crate::ring::{RingCode, RingEdge};
use crate::text::polygons::{
    PolygonId, WrittenPoint, hole_in_hole_object, in_polygon_object, outside_object, ring_object,
    written_meeting_object,
};
use serde_json::Value;
use std::alloc::{AllocError, Global};

pub(super) fn ring_candidate(
    alloc: Global,
    value: &Value,
    code: RingCode,
) -> Result<Candidate, AllocError>
    requires { HasCode (view value.now) (ring_code code) }
    ensures { IfOk result (IsCandidate (view value.now)) }
{
    let layer = ordinal_at(value, "layer");
    let feature = ordinal_at(value, "feature");
    let ring = ordinal_at(value, "ring");
    Ok(Candidate {
        object: ring_object(alloc, code.code(), layer, feature, ring)?,
        fault: Some(Fault::Ring {
            code,
            layer,
            feature,
            ring,
        }),
    })
}

pub(super) fn meeting_candidate(alloc: Global, value: &Value) -> Result<Candidate, AllocError>
    requires { HasCode (view value.now) 504 }
    ensures { IfOk result (IsCandidate (view value.now)) }
{
    let id = polygon_of(value);
    let (first, second) = (edge_at(value, "first"), edge_at(value, "second"));
    let point = WrittenPoint {
        x: decimal_at(value, "x"),
        y: decimal_at(value, "y"),
        w: decimal_at(value, "w"),
    };
    Ok(Candidate {
        object: written_meeting_object(alloc, id, first, second, &point)?,
        fault: meeting_fault_in_range(id, first, second, &point),
    })
}

fn meeting_fault_in_range(
    id: PolygonId,
    first: RingEdge,
    second: RingEdge,
    point: &WrittenPoint<'_>,
) -> Option<Fault>
    requires x { HasDecimalForm point.now.x.now }
    requires y { HasDecimalForm point.now.y.now }
    requires w { HasDecimalForm point.now.w.now }
    ensures { (d : Data) → d ≡ meeting_parts id.layer id.feature id.polygon (edge_data first)
        (edge_data second)
        (string point.now.w.now) (string point.now.x.now) (string point.now.y.now)
        → MatchOption result (IsOutOfRange d) (λ f. StandsFor f d × IsInRange f) }
{
    Some(Fault::Meeting {
        layer: id.layer,
        feature: id.feature,
        polygon: id.polygon,
        first,
        second,
        x: number_of(point.x)?,
        y: number_of(point.y)?,
        w: number_of(point.w)?,
    })
}

pub(super) fn outside_candidate(alloc: Global, value: &Value) -> Result<Candidate, AllocError>
    requires { HasCode (view value.now) 505 }
    ensures { IfOk result (IsCandidate (view value.now)) }
{
    let layer = ordinal_at(value, "layer");
    let feature = ordinal_at(value, "feature");
    let polygon = ordinal_at(value, "polygon");
    let ring = ordinal_at(value, "ring");
    let vertex = ordinal_at(value, "vertex");
    Ok(Candidate {
        object: outside_object(
            alloc,
            PolygonId {
                layer,
                feature,
                polygon,
            },
            ring,
            vertex,
        )?,
        fault: Some(Fault::Outside {
            layer,
            feature,
            polygon,
            ring,
            vertex,
        }),
    })
}

pub(super) fn hole_in_hole_candidate(alloc: Global, value: &Value) -> Result<Candidate, AllocError>
    requires { HasCode (view value.now) 506 }
    ensures { IfOk result (IsCandidate (view value.now)) }
{
    let layer = ordinal_at(value, "layer");
    let feature = ordinal_at(value, "feature");
    let polygon = ordinal_at(value, "polygon");
    let ring = ordinal_at(value, "ring");
    let vertex = ordinal_at(value, "vertex");
    let other = ordinal_at(value, "other");
    Ok(Candidate {
        object: hole_in_hole_object(
            alloc,
            PolygonId {
                layer,
                feature,
                polygon,
            },
            ring,
            vertex,
            other,
        )?,
        fault: Some(Fault::HoleInHole {
            layer,
            feature,
            polygon,
            ring,
            vertex,
            other,
        }),
    })
}

pub(super) fn in_polygon_candidate(alloc: Global, value: &Value) -> Result<Candidate, AllocError>
    requires { HasCode (view value.now) 507 }
    ensures { IfOk result (IsCandidate (view value.now)) }
{
    let layer = ordinal_at(value, "layer");
    let feature = ordinal_at(value, "feature");
    let polygon = ordinal_at(value, "polygon");
    let vertex = ordinal_at(value, "vertex");
    let other = ordinal_at(value, "other");
    Ok(Candidate {
        object: in_polygon_object(
            alloc,
            PolygonId {
                layer,
                feature,
                polygon,
            },
            vertex,
            other,
        )?,
        fault: Some(Fault::InPolygon {
            layer,
            feature,
            polygon,
            vertex,
            other,
        }),
    })
}

fn polygon_of(value: &Value) -> PolygonId
    ensures layer { (n : ℕ) → get (codes "layer") (view value.now) ≡ Some (whole_number n)
        → result.layer ≡ n }
    ensures feature { (n : ℕ) → get (codes "feature") (view value.now) ≡ Some (whole_number n)
        → result.feature ≡ n }
    ensures polygon { (n : ℕ) → get (codes "polygon") (view value.now) ≡ Some (whole_number n)
        → result.polygon ≡ n }
{
    PolygonId {
        layer: ordinal_at(value, "layer"),
        feature: ordinal_at(value, "feature"),
        polygon: ordinal_at(value, "polygon"),
    }
}

/// The edge at the key. Where there is none its ordinals are 0, and the candidate's object differs.
fn edge_at(value: &Value, key: &str) -> RingEdge
    ensures { (edge : RingEdge) → get key.now (view value.now) ≡ Some (edge_data edge)
        → result ≡ edge }
{
    let (edge, ring) = match value.get(key) {
        Some(object) => (ordinal_at(object, "edge"), ordinal_at(object, "ring")),
        None => (0, 0),
    };
    RingEdge { ring, edge }
}
