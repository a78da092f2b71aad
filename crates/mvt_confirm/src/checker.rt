//! Whether a fault is true of the bytes of a tile (Mapbox Vector Tile Specification 2.1, section
//! 4).

ghost use Rattle.std.specs.Prelude.{◌↔◌, IsTrue};
ghost use Rattle.mvt_confirm.specs.Calls.HoleFault.{IsOfHole};
ghost use Rattle.mvt_rules.specs.Shows.{Shows, ShowsBy};
ghost use Rattle.mvt_rules.specs.Valid.{Valid, ValidBy};
ghost use Rattle.mvt_fault.specs.Calls.Place.{IsOfPolygon};
ghost use Rattle.mvt_fault.specs.declared.profile.Profile.{Profile};
ghost use Rattle.mvt_rules.specs.Tile.{TileRecord, IsTile};

use crate::geometry::{
    has_command_fault, has_meeting, has_ring_fault, has_vertex_in_hole, has_vertex_in_polygon,
    has_vertex_outside,
};
use crate::layers::{has_other_version, has_same_name};
use crate::meeting::EdgeMeeting;
use crate::tags::breaks_tags;
use crate::tile::is_tile;
use crate::wire_fault::has_wire_fault;
use mvt_fault::{Fault, Profile};

/// Whether the fault is true of the bytes of a tile, by the profile that checks each polygon by
/// itself.
pub fn confirm(bytes: &[u8], fault: &Fault) -> bool
    ensures shown { IsTrue result ↔ Shows bytes.now fault.now }
    ensures invalid { IsTrue result → ¬ Valid bytes.now }
{
    confirm_with(Profile::Polygon, bytes, fault)
}

/// Whether the fault is true of the bytes of a tile, by the profile. On a fault that isn't, however
/// it was made up, the answer is false: where an ordinal doesn't exist, where the edges of a
/// meeting are out of order, or where its point is out of the range of `Hpoint`. A wire fault is
/// true only where each message around its scope is whole; any other fault only where the bytes
/// have no wire fault.
///
/// It takes no memory, keeps no list, and walks the bytes a constant number of times.
pub fn confirm_with(profile: Profile, bytes: &[u8], fault: &Fault) -> bool
    ensures shown { IsTrue result ↔ ShowsBy profile bytes.now fault.now }
    ensures invalid { IsTrue result → ¬ ValidBy profile bytes.now }
{
    match *fault {
        Fault::Wire {
            code,
            scope,
            at,
            field,
        } => has_wire_fault(bytes, code, &scope, at, field),
        _ => is_tile(bytes) && has_fault_of_tile(profile, bytes, fault),
    }
}

/// Whether the fault is true of bytes that are a tile, which have no wire fault.
fn has_fault_of_tile(profile: Profile, bytes: &[u8], fault: &Fault) -> bool
    ensures { (tile : TileRecord) → IsTile bytes.now tile
        → (IsTrue result ↔ ShowsBy profile bytes.now fault.now) }
{
    match *fault {
        Fault::Wire { .. } => false,
        Fault::Version { layer } => has_other_version(bytes, layer),
        Fault::Name { first, second } => has_same_name(bytes, first, second),
        Fault::Tag {
            code,
            layer,
            feature,
            index,
        } => breaks_tags(bytes, code, layer, feature, index),
        Fault::Command {
            code,
            layer,
            feature,
            index,
        } => has_command_fault(bytes, code, layer, feature, index),
        Fault::Ring {
            code,
            layer,
            feature,
            ring,
        } => has_ring_fault(bytes, code, layer, feature, ring),
        Fault::Meeting { .. }
        | Fault::Outside { .. }
        | Fault::HoleInHole { .. }
        | Fault::InPolygon { .. } => has_fault_of_polygon(profile, bytes, fault),
    }
}

/// Whether the fault is one of a polygon, and true of bytes that are a tile.
fn has_fault_of_polygon(profile: Profile, bytes: &[u8], fault: &Fault) -> bool
    ensures { (tile : TileRecord) → IsTile bytes.now tile
        → (IsTrue result ↔ IsOfPolygon fault.now × ShowsBy profile bytes.now fault.now) }
{
    match *fault {
        Fault::Meeting {
            layer,
            feature,
            polygon,
            first,
            second,
            x,
            y,
            w,
        } => {
            let meeting = EdgeMeeting {
                first,
                second,
                x,
                y,
                w,
            };
            has_meeting(profile, bytes, layer, feature, polygon, meeting)
        }
        Fault::InPolygon {
            layer,
            feature,
            polygon,
            vertex,
            other,
        } => has_vertex_in_polygon(profile, bytes, layer, feature, polygon, vertex, other),
        _ => has_fault_of_hole(bytes, fault),
    }
}

/// Whether the fault is one of a hole of a polygon, and true of bytes that are a tile. It is the
/// same by every profile.
fn has_fault_of_hole(bytes: &[u8], fault: &Fault) -> bool
    ensures { (profile : Profile) (tile : TileRecord) → IsTile bytes.now tile
        → (IsTrue result ↔ IsOfHole fault.now × ShowsBy profile bytes.now fault.now) }
{
    match *fault {
        Fault::Outside {
            layer,
            feature,
            polygon,
            ring,
            vertex,
        } => has_vertex_outside(bytes, layer, feature, polygon, ring, vertex),
        Fault::HoleInHole {
            layer,
            feature,
            polygon,
            ring,
            vertex,
            other,
        } => has_vertex_in_hole(bytes, layer, feature, polygon, ring, vertex, other),
        _ => false,
    }
}
