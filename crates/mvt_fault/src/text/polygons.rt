//! The JSON objects of the faults of rings and polygons.

ghost use Rattle.std.specs.Prelude.{◌≡◌, IfOk, OnOk};
ghost use Rattle.serde_json.specs.Data.{put as with_member, string};
ghost use Rattle.serde_json.specs.View.{members_view, view};
ghost use Rattle.mvt_fault.specs.Calls.Place.{IsOfPolygon};
ghost use Rattle.mvt_fault.specs.Text.{data_of, IsInRange, ring_data, edge_data, meeting_data, meeting_parts, outside_data, hole_in_hole_data, in_polygon_data};

use crate::fault::{Fault, HOLE_IN_HOLE_CODE, IN_POLYGON_CODE, MEETING_CODE, OUTSIDE_CODE};
use crate::ring::RingEdge;
use crate::text::members::{add_text, members_of};
use serde_json::{Map, Value, put};
use std::alloc::{AllocError, Global};

/// A polygon of a tile by ordinals: of its layer, of the feature in the layer, and of the polygon
/// in the feature.
#[derive(Clone, Copy)]
pub(crate) struct PolygonId {
    pub layer: usize,
    pub feature: usize,
    pub polygon: usize,
}

impl PolygonId {
    ghost use Rattle.std.specs.Prelude.{◌≡◌};

    fn new(layer: usize, feature: usize, polygon: usize) -> PolygonId
        ensures { result ≡ record { layer = layer; feature = feature; polygon = polygon } }
    {
        PolygonId {
            layer,
            feature,
            polygon,
        }
    }
}

/// The point (x / w, y / w).
#[derive(Clone, Copy)]
struct MeetingPoint {
    x: i128,
    y: i128,
    w: i128,
}

/// The numbers of such a point, in decimal digits.
#[derive(Clone, Copy)]
pub(crate) struct WrittenPoint<'a> {
    pub x: &'a str,
    pub y: &'a str,
    pub w: &'a str,
}

pub(crate) fn ring_object(
    alloc: Global,
    code: u16,
    layer: usize,
    feature: usize,
    ring: usize,
) -> Result<Value, AllocError>
    ensures { IfOk result (λ v. view v ≡ ring_data code layer feature ring) }
{
    let members = [
        ("code", u64::from(code)),
        ("feature", feature as u64),
        ("layer", layer as u64),
        ("ring", ring as u64),
    ];
    Ok(Value::Object(members_of(alloc, &members)?))
}

pub(crate) fn polygon_object(alloc: Global, fault: &Fault) -> Result<Value, AllocError>
    requires { IsOfPolygon fault.now }
    ensures object { IfOk result (λ v. view v ≡ data_of fault.now) }

    // The numbers of a point are i128, and a caller's proof sees that only here, where the fault is
    // taken apart.
    ensures in_range { OnOk result (IsInRange fault.now) }
{
    match *fault {
        Fault::Meeting {
            layer,
            feature,
            polygon,
            first,
            second,
            x,
            y,
            w,
        } => {
            let id = PolygonId::new(layer, feature, polygon);
            meeting_object(alloc, id, first, second, MeetingPoint { x, y, w })
        }
        Fault::Outside {
            layer,
            feature,
            polygon,
            ring,
            vertex,
        } => {
            let id = PolygonId::new(layer, feature, polygon);
            outside_object(alloc, id, ring, vertex)
        }
        Fault::HoleInHole {
            layer,
            feature,
            polygon,
            ring,
            vertex,
            other,
        } => {
            let id = PolygonId::new(layer, feature, polygon);
            hole_in_hole_object(alloc, id, ring, vertex, other)
        }
        Fault::InPolygon {
            layer,
            feature,
            polygon,
            vertex,
            other,
        } => {
            let id = PolygonId::new(layer, feature, polygon);
            in_polygon_object(alloc, id, vertex, other)
        }
        _ => unreachable!(),
    }
}

fn meeting_object(
    alloc: Global,
    id: PolygonId,
    first: RingEdge,
    second: RingEdge,
    point: MeetingPoint,
) -> Result<Value, AllocError>
    ensures { IfOk result (λ v.
        view v ≡ meeting_data id.layer id.feature id.polygon first second point.x point.y point.w) }
{
    let w = point.w.to_string(alloc)?;
    let x = point.x.to_string(alloc)?;
    let y = point.y.to_string(alloc)?;
    let written = WrittenPoint {
        x: &x,
        y: &y,
        w: &w,
    };
    written_meeting_object(alloc, id, first, second, &written)
}

/// The same of numbers that are written already, in decimal digits.
pub(crate) fn written_meeting_object(
    alloc: Global,
    id: PolygonId,
    first: RingEdge,
    second: RingEdge,
    point: &WrittenPoint<'_>,
) -> Result<Value, AllocError>
    ensures { IfOk result (λ v.
        view v ≡ meeting_parts id.layer id.feature id.polygon (edge_data first) (edge_data second)
        (string point.now.w.now) (string point.now.x.now) (string point.now.y.now)) }
{
    let members = [
        ("code", u64::from(MEETING_CODE)),
        ("feature", id.feature as u64),
        ("layer", id.layer as u64),
        ("polygon", id.polygon as u64),
    ];
    let mut map = members_of(alloc, &members)?;
    add_edge(&mut map, alloc, "first", first)?;
    add_edge(&mut map, alloc, "second", second)?;
    add_text(&mut map, alloc, "w", point.w)?;
    add_text(&mut map, alloc, "x", point.x)?;
    add_text(&mut map, alloc, "y", point.y)?;
    Ok(Value::Object(map))
}

/// One more member, an edge at its key.
fn add_edge(
    map: &mut Map<String, Value>,
    alloc: Global,
    key: &str,
    edge: RingEdge,
) -> Result<(), AllocError>
    ensures { OnOk result (members_view map.new.entries
        ≡ with_member key.now (edge_data edge) (members_view map.old.entries)) }
{
    let members = [("edge", edge.edge as u64), ("ring", edge.ring as u64)];
    put(map, alloc, key, Value::Object(members_of(alloc, &members)?))
}

pub(crate) fn outside_object(
    alloc: Global,
    id: PolygonId,
    ring: usize,
    vertex: usize,
) -> Result<Value, AllocError>
    ensures { IfOk result (λ v. view v ≡ outside_data id.layer id.feature id.polygon ring vertex) }
{
    let members = [
        ("code", u64::from(OUTSIDE_CODE)),
        ("feature", id.feature as u64),
        ("layer", id.layer as u64),
        ("polygon", id.polygon as u64),
        ("ring", ring as u64),
        ("vertex", vertex as u64),
    ];
    Ok(Value::Object(members_of(alloc, &members)?))
}

pub(crate) fn hole_in_hole_object(
    alloc: Global,
    id: PolygonId,
    ring: usize,
    vertex: usize,
    other: usize,
) -> Result<Value, AllocError>
    ensures { IfOk result (λ v.
        view v ≡ hole_in_hole_data id.layer id.feature id.polygon ring vertex other) }
{
    let members = [
        ("code", u64::from(HOLE_IN_HOLE_CODE)),
        ("feature", id.feature as u64),
        ("layer", id.layer as u64),
        ("other", other as u64),
        ("polygon", id.polygon as u64),
        ("ring", ring as u64),
        ("vertex", vertex as u64),
    ];
    Ok(Value::Object(members_of(alloc, &members)?))
}

pub(crate) fn in_polygon_object(
    alloc: Global,
    id: PolygonId,
    vertex: usize,
    other: usize,
) -> Result<Value, AllocError>
    ensures { IfOk result (λ v.
        view v ≡ in_polygon_data id.layer id.feature id.polygon vertex other) }
{
    let members = [
        ("code", u64::from(IN_POLYGON_CODE)),
        ("feature", id.feature as u64),
        ("layer", id.layer as u64),
        ("other", other as u64),
        ("polygon", id.polygon as u64),
        ("vertex", vertex as u64),
    ];
    Ok(Value::Object(members_of(alloc, &members)?))
}
