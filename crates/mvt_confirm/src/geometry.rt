//! The faults of the geometry of a feature, by the feature's ordinals, of bytes that are a tile
//! (Mapbox Vector Tile Specification 2.1, section 4.3).

ghost use Rattle.std.specs.Prelude.{◌↔◌, IsTrue, List, IfNone, IfSome};
ghost use Rattle.mvt_rules.specs.Shows.{OfRings, OfFeature};
ghost use Rattle.mvt_confirm.specs.Calls.FeatureMessage.{DrawsRings};
ghost use Rattle.mvt_rules.specs.PolygonFault.{IsMeetingBy, IsVertexInHole, IsVertexInPolygonBy, IsVertexOutside};
ghost use Rattle.mvt_fault.specs.Code.{command_code, ring_code};
ghost use Rattle.mvt_plane.specs.FeatureGeometry.{BreaksCommands, HasRings};
ghost use Rattle.mvt_plane.specs.Position.{Position};
ghost use Rattle.mvt_rules.specs.Ring.{BreaksRings};
ghost use Rattle.mvt_rules.specs.Rules.{IsFeatureOf};
ghost use Rattle.mvt_rules.specs.Tile.{FeatureRecord, LayerRecord, TileRecord, IsTile};

use crate::apart::is_vertex_in_polygon;
use crate::feature_message::{FeatureMessage, feature_of};
use crate::meeting::{EdgeMeeting, is_meeting};
use crate::nesting::{is_vertex_in_hole, is_vertex_outside};
use crate::ring_faults::breaks_rings;
use mvt_fault::{CommandCode, Profile, RingCode};

/// Whether there is a feature with these ordinals, and its geometry has this command fault, at this
/// index.
pub(crate) fn has_command_fault(
    bytes: &[u8],
    code: CommandCode,
    layer: usize,
    feature: usize,
    index: usize,
) -> bool
    ensures { (tile : TileRecord) → IsTile bytes.now tile → (IsTrue result
        ↔ OfFeature bytes.now layer feature (λ layer_record feature_record.
        BreaksCommands feature_record.kind feature_record.geometry (command_code code) index)) }
{
    match feature_of(bytes, layer, feature) {
        Some(place) => place.breaks_commands(code, index),
        None => false,
    }
}

/// Whether there is a feature with these ordinals that draws rings, and this one of them has this
/// fault.
pub(crate) fn has_ring_fault(
    bytes: &[u8],
    code: RingCode,
    layer: usize,
    feature: usize,
    ring: usize,
) -> bool
    ensures { (tile : TileRecord) → IsTile bytes.now tile → (IsTrue result
        ↔ OfFeature bytes.now layer feature (λ layer_record feature_record.
        OfRings feature_record (λ rings. BreaksRings rings (ring_code code) ring))) }
{
    match drawn_feature(bytes, layer, feature) {
        Some(place) => breaks_rings(place.vertices(), code, ring),
        None => false,
    }
}

/// Whether there is a feature with these ordinals that draws rings, and two edges of it that the
/// profile keeps apart, named in order, meet wrongly at this point, of which the second one is of
/// this polygon.
pub(crate) fn has_meeting(
    profile: Profile,
    bytes: &[u8],
    layer: usize,
    feature: usize,
    polygon: usize,
    meeting: EdgeMeeting,
) -> bool
    ensures { (tile : TileRecord) → IsTile bytes.now tile
        → (IsTrue result ↔ OfFeature bytes.now layer feature
        (λ layer_record feature_record.
        OfRings feature_record (λ rings.
        IsMeetingBy profile rings polygon meeting.first meeting.second
        (record { x = meeting.x; y = meeting.y; w = meeting.w })))) }
{
    match drawn_feature(bytes, layer, feature) {
        Some(place) => is_meeting(profile, &place, polygon, meeting),
        None => false,
    }
}

/// Whether there is a feature with these ordinals that draws rings, and this vertex of a hole of
/// this polygon of it isn't inside the exterior.
pub(crate) fn has_vertex_outside(
    bytes: &[u8],
    layer: usize,
    feature: usize,
    polygon: usize,
    ring: usize,
    vertex: usize,
) -> bool
    ensures { (tile : TileRecord) → IsTile bytes.now tile → (IsTrue result
        ↔ OfFeature bytes.now layer feature (λ layer_record feature_record.
        OfRings feature_record (λ rings. IsVertexOutside rings polygon ring vertex))) }
{
    match drawn_feature(bytes, layer, feature) {
        Some(place) => is_vertex_outside(&place, polygon, ring, vertex),
        None => false,
    }
}

/// Whether there is a feature with these ordinals that draws rings, and this vertex of a hole of
/// this polygon of it is inside this other hole.
pub(crate) fn has_vertex_in_hole(
    bytes: &[u8],
    layer: usize,
    feature: usize,
    polygon: usize,
    ring: usize,
    vertex: usize,
    other: usize,
) -> bool
    ensures { (tile : TileRecord) → IsTile bytes.now tile → (IsTrue result
        ↔ OfFeature bytes.now layer feature (λ layer_record feature_record.
        OfRings feature_record (λ rings. IsVertexInHole rings polygon ring vertex other))) }
{
    match drawn_feature(bytes, layer, feature) {
        Some(place) => is_vertex_in_hole(&place, polygon, ring, vertex, other),
        None => false,
    }
}

/// Whether there is a feature with these ordinals that draws rings, and this vertex of the exterior
/// of this polygon of it is inside this other polygon, from which the profile keeps it apart.
pub(crate) fn has_vertex_in_polygon(
    profile: Profile,
    bytes: &[u8],
    layer: usize,
    feature: usize,
    polygon: usize,
    vertex: usize,
    other: usize,
) -> bool
    ensures { (tile : TileRecord) → IsTile bytes.now tile → (IsTrue result
        ↔ OfFeature bytes.now layer feature (λ layer_record feature_record.
        OfRings feature_record (λ rings. IsVertexInPolygonBy profile rings polygon vertex other))) }
{
    match drawn_feature(bytes, layer, feature) {
        Some(place) => is_vertex_in_polygon(profile, &place, polygon, vertex, other),
        None => false,
    }
}

/// The feature with these ordinals, if there is one and it draws rings.
fn drawn_feature(bytes: &[u8], layer: usize, feature: usize) -> Option<FeatureMessage>
    ensures there { IfSome result (λ place. (tile : TileRecord) → IsTile bytes.now tile
        → (layer_record : LayerRecord) × (feature_record : FeatureRecord)
        × (rings : List (List Position))
        × IsFeatureOf tile layer feature layer_record feature_record
        × HasRings feature_record.kind feature_record.geometry rings × DrawsRings place rings) }
    ensures none { IfNone result ((tile : TileRecord) (layer_record : LayerRecord)
        (feature_record : FeatureRecord) (rings : List (List Position)) → IsTile bytes.now tile
        → IsFeatureOf tile layer feature layer_record feature_record
        → ¬ HasRings feature_record.kind feature_record.geometry rings) }
{
    let place = feature_of(bytes, layer, feature)?;
    if place.draws_rings() {
        Some(place)
    } else {
        None
    }
}
