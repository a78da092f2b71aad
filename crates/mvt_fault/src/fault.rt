ghost use Rattle.std.specs.Prelude.{◌≡◌, ◌∷◌, []};
ghost use Rattle.mvt_fault.specs.Code.{fault_code};
ghost use Rattle.mvt_fault.specs.Calls.Place.{IsOfPolygon};
ghost use Rattle.mvt_fault.specs.Place.{place_of, scope_place};
ghost use Rattle.mvt_fault.specs.Cause.{wire_fault_in};

use crate::command::CommandCode;
use crate::order::Place;
use crate::ring::{RingCode, RingEdge};
use crate::tag::TagCode;
use mvt_wire::{Scope, WireCause, WireCode};

/// What is wrong with a tile, and where. Any value may be built: it says nothing of a tile's bytes
/// until it is confirmed on them.
#[derive(Clone, Copy, Debug, PartialEq, Eq)]
pub enum Fault {
    /// The bytes are no tile, by the Protocol Buffers encoding ("Base 128 Varints" and "Message
    /// Structure") or by the tile's schema (Mapbox Vector Tile Specification 2.1, section 4).
    Wire {
        /// The cause.
        code: WireCode,
        /// The innermost message of the tile that the fault is in.
        scope: Scope,
        /// The offset of the fault in bytes, counted from 0 at the tile's first byte.
        at: usize,
        /// The number of the field, or 0 where the fault is about no field with a number.
        field: u32,
    },
    /// A layer's version isn't 2 (section 4.1).
    Version {
        /// The layer's ordinal, counted from 0.
        layer: usize,
    },
    /// Two layers have one name, the same byte for byte (section 4.1).
    Name {
        /// The ordinal of the layer that comes first, counted from 0.
        first: usize,
        /// The ordinal of the other, counted from 0.
        second: usize,
    },
    /// The tags of a feature are wrong (section 4.4).
    Tag {
        /// The cause.
        code: TagCode,
        /// The ordinal of the feature's layer, counted from 0.
        layer: usize,
        /// The ordinal of the feature in its layer, counted from 0.
        feature: usize,
        /// The place in the list of tags, counted from 0; the list's length where that is odd.
        index: usize,
    },
    /// The geometry of a feature doesn't draw a figure of its type (section 4.3).
    Command {
        /// The cause.
        code: CommandCode,
        /// The ordinal of the feature's layer, counted from 0.
        layer: usize,
        /// The ordinal of the feature in its layer, counted from 0.
        feature: usize,
        /// The place in the list of geometry numbers, counted from 0; the list's length where the
        /// numbers end too early.
        index: usize,
    },
    /// A ring of a feature can't be a polygon's (section 4.3.4.4).
    Ring {
        /// The cause.
        code: RingCode,
        /// The ordinal of the feature's layer, counted from 0.
        layer: usize,
        /// The ordinal of the feature in its layer, counted from 0.
        feature: usize,
        /// The ordinal of the ring in the feature, counted from 0.
        ring: usize,
    },
    /// Two edges of a polygon, or in the profile `Profile::Feature` of two, have a point in common
    /// that isn't the vertex between them as neighbours (section 4.3.4.4). The point is
    /// (x / w, y / w).
    Meeting {
        /// The ordinal of the feature's layer, counted from 0.
        layer: usize,
        /// The ordinal of the feature in its layer, counted from 0.
        feature: usize,
        /// The ordinal in the feature of the polygon that the second edge is of, counted from 0.
        polygon: usize,
        /// The edge that comes first, by its ring and then by its own ordinal.
        first: RingEdge,
        /// The other edge.
        second: RingEdge,
        /// The point's x coordinate times `w`; from -2^93 to 2^93 where the fault is true.
        x: i128,
        /// The point's y coordinate times `w`; from -2^93 to 2^93 where the fault is true.
        y: i128,
        /// What both are to be divided by; from 1 to 2^63 where the fault is true.
        w: i128,
    },
    /// A vertex of a hole isn't inside the exterior of its polygon (section 4.3.4.4).
    Outside {
        /// The ordinal of the feature's layer, counted from 0.
        layer: usize,
        /// The ordinal of the feature in its layer, counted from 0.
        feature: usize,
        /// The ordinal of the polygon in the feature, counted from 0.
        polygon: usize,
        /// The ordinal of the hole among all rings of the feature, counted from 0.
        ring: usize,
        /// The ordinal of the vertex in the hole, counted from 0.
        vertex: usize,
    },
    /// A vertex of a hole is inside another hole of its polygon (section 4.3.4.4).
    HoleInHole {
        /// The ordinal of the feature's layer, counted from 0.
        layer: usize,
        /// The ordinal of the feature in its layer, counted from 0.
        feature: usize,
        /// The ordinal of the polygon in the feature, counted from 0.
        polygon: usize,
        /// The ordinal of the hole among all rings of the feature, counted from 0.
        ring: usize,
        /// The ordinal of the vertex in the hole, counted from 0.
        vertex: usize,
        /// The ordinal of the other hole among all rings of the feature, counted from 0.
        other: usize,
    },
    /// A vertex of a polygon's exterior is inside another polygon of the feature: inside its
    /// exterior, and inside none of its holes. It is a fault in the profile `Profile::Feature`
    /// alone.
    InPolygon {
        /// The ordinal of the feature's layer, counted from 0.
        layer: usize,
        /// The ordinal of the feature in its layer, counted from 0.
        feature: usize,
        /// The ordinal of the polygon in the feature, counted from 0.
        polygon: usize,
        /// The ordinal of the vertex in the polygon's exterior, counted from 0.
        vertex: usize,
        /// The ordinal of the other polygon in the feature, counted from 0.
        other: usize,
    },
}

// The numbers of the causes that have no type of their own.
pub(crate) const VERSION_CODE: u16 = 201;

pub(crate) const NAME_CODE: u16 = 202;

pub(crate) const MEETING_CODE: u16 = 504;

pub(crate) const OUTSIDE_CODE: u16 = 505;

pub(crate) const HOLE_IN_HOLE_CODE: u16 = 506;

pub(crate) const IN_POLYGON_CODE: u16 = 507;

/// The fault of a cause in the message of a scope.
pub fn wire_fault_in(scope: Scope, cause: WireCause) -> Fault
    ensures { result ≡ wire_fault_in scope cause }
{
    Fault::Wire {
        code: cause.code,
        scope,
        at: cause.at,
        field: cause.field,
    }
}

/// The number that names the fault's cause: 101 to 111 for a wire fault, 201 for a layer's version,
/// 202 for two layers of one name, 301 to 304 for tags, 401 to 406 for geometry commands, 501 to
/// 503 for rings, 504 for edges that meet, 505 and 506 for holes, 507 for a polygon in another one.
pub fn code(fault: &Fault) -> u16
    ensures { result ≡ fault_code fault.now }
{
    match fault {
        Fault::Wire { code, .. } => code.code(),
        Fault::Version { .. } => VERSION_CODE,
        Fault::Name { .. } => NAME_CODE,
        Fault::Tag { code, .. } => code.code(),
        Fault::Command { code, .. } => code.code(),
        Fault::Ring { code, .. } => code.code(),
        Fault::Meeting { .. } => MEETING_CODE,
        Fault::Outside { .. } => OUTSIDE_CODE,
        Fault::HoleInHole { .. } => HOLE_IN_HOLE_CODE,
        Fault::InPolygon { .. } => IN_POLYGON_CODE,
    }
}

/// The fault's place in the order of faults. Wire faults come first: those of the tile's own
/// fields; then, layer by layer, those of the layer's fields, its values and its features (Mapbox
/// Vector Tile Specification 2.1, section 4). Within one message the offset in bytes decides, then
/// the code, then the field number. Versions and names follow layer by layer, and then, feature by
/// feature, tags, geometry commands, rings, and polygon by polygon the meeting of edges, the holes,
/// and the polygon in another one. All meetings of one polygon have the same place.
pub fn place(fault: &Fault) -> Place
    ensures { result ≡ place_of fault.now }
{
    Place::new(match *fault {
        Fault::Wire {
            code,
            scope,
            at,
            field,
        } => {
            let [stage, inner, layer, part, member] = scope_numbers(scope);
            let (code, field) = (usize::from(code.code()), field as usize);
            [stage, inner, layer, part, member, at, code, field, 0, 0]
        }
        Fault::Version { layer } => { [1, layer, usize::from(VERSION_CODE), 0, 0, 0, 0, 0, 0, 0] }
        Fault::Name { first, second } => {
            [1, second, usize::from(NAME_CODE), first, 0, 0, 0, 0, 0, 0]
        }
        Fault::Tag {
            code,
            layer,
            feature,
            index,
        } => feature_numbers(layer, feature, 0, index, code.code()),
        Fault::Command {
            code,
            layer,
            feature,
            index,
        } => feature_numbers(layer, feature, 1, index, code.code()),
        Fault::Ring {
            code,
            layer,
            feature,
            ring,
        } => feature_numbers(layer, feature, 2, ring, code.code()),
        Fault::Meeting { .. }
        | Fault::Outside { .. }
        | Fault::HoleInHole { .. }
        | Fault::InPolygon { .. } => polygon_numbers(fault),
    })
}

// The first five numbers of a wire fault's place: 0, since faults of the bytes come before all
// others; whether it is in a layer, and in which; whether it is in a value or a feature, and in
// which.
fn scope_numbers(scope: Scope) -> [usize; 5]
    ensures { result ≡ scope_place scope }
{
    match scope {
        Scope::Tile => [0, 0, 0, 0, 0],
        Scope::Layer(layer) => [0, 1, layer, 0, 0],
        Scope::Value(layer, value) => [0, 1, layer, 1, value],
        Scope::Feature(layer, feature) => [0, 1, layer, 2, feature],
    }
}

// The numbers of a fault in a feature: 2, since such faults come last; which layer and feature; 0
// for its tags, 1 for its commands and 2 for its rings; the place in their list, and the code.
fn feature_numbers(
    layer: usize,
    feature: usize,
    part: usize,
    index: usize,
    code: u16,
) -> [usize; 10]
    ensures { result ≡ 2 ∷ layer ∷ feature ∷ part ∷ index ∷ code ∷ 0 ∷ 0 ∷ 0 ∷ 0 ∷ [] }
{
    [
        2,
        layer,
        feature,
        part,
        index,
        usize::from(code),
        0,
        0,
        0,
        0,
    ]
}

// The numbers of a fault of a polygon: 2, since such faults come last; which layer and feature; 3,
// after its rings; which polygon; 0 for a meeting of edges, 1 for a hole, 2 for the exterior; the
// hole, the vertex, the code, and the other hole or polygon.
fn polygon_numbers(fault: &Fault) -> [usize; 10]
    requires { IsOfPolygon fault.now }
    ensures { result ≡ place_of fault.now }
{
    match *fault {
        Fault::Meeting {
            layer,
            feature,
            polygon,
            ..
        } => { [2, layer, feature, 3, polygon, 0, 0, 0, 0, 0] }
        Fault::Outside {
            layer,
            feature,
            polygon,
            ring,
            vertex,
        } => {
            let code = usize::from(OUTSIDE_CODE);
            [2, layer, feature, 3, polygon, 1, ring, vertex, code, 0]
        }
        Fault::HoleInHole {
            layer,
            feature,
            polygon,
            ring,
            vertex,
            other,
        } => {
            let code = usize::from(HOLE_IN_HOLE_CODE);
            [2, layer, feature, 3, polygon, 1, ring, vertex, code, other]
        }
        Fault::InPolygon {
            layer,
            feature,
            polygon,
            vertex,
            other,
        } => {
            let code = usize::from(IN_POLYGON_CODE);
            [2, layer, feature, 3, polygon, 2, vertex, code, other, 0]
        }
        _ => unreachable!(),
    }
}
