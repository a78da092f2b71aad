//! Where a feature lies in the bytes of a tile, so that a walk over its numbers can begin again
//! (Mapbox Vector Tile Specification 2.1, section 4.2).

ghost use Rattle.std.specs.Prelude.{◌≡◌, ◌↔◌, IsTrue, List, Some, None, IfNone, IfSome};
ghost use Rattle.mvt_confirm.specs.Calls.Vertices.{RingsLeft};
ghost use Rattle.mvt_confirm.specs.Calls.FeatureMessage.{DrawsRings, IsFeatureAt};
ghost use Rattle.mvt_fault.specs.Code.{command_code};
ghost use Rattle.mvt_plane.specs.FeatureGeometry.{BreaksCommands, HasRings};
ghost use Rattle.mvt_plane.specs.Position.{Position};
ghost use Rattle.mvt_wire.specs.Numbers.{NumbersLeft};
ghost use Rattle.mvt_rules.specs.Rules.{IsFeatureOf};
ghost use Rattle.mvt_rules.specs.Tile.{FeatureRecord, LayerRecord, TileRecord, IsTile};

use crate::commands::{breaks_commands, draws_rings};
use crate::message_bytes::MessageBytes;
use crate::numbers::number_of;
use crate::span::span_of_scope;
use crate::vertices::Vertices;
use mvt_fault::CommandCode;
use mvt_wire::field_number::{GEOMETRY, GEOMETRY_TYPE, TAGS};
use mvt_wire::{Numbers, Scope};

// The number of the geometry type of polygons.
const POLYGON: u32 = 3;

/// The message of a feature.
pub(crate) type FeatureMessage<'a> = MessageBytes<'a>;

/// The feature with these ordinals, of bytes that are a tile; None where there is none.
pub(crate) fn feature_of(bytes: &[u8], layer: usize, feature: usize) -> Option<FeatureMessage>
    ensures there { IfSome result (λ place. (tile : TileRecord) → IsTile bytes.now tile
        → (layer_record : LayerRecord) × (feature_record : FeatureRecord)
        × IsFeatureOf tile layer feature layer_record feature_record
        × IsFeatureAt place feature_record) }
    ensures none { IfNone result ((tile : TileRecord) (layer_record : LayerRecord)
        (feature_record : FeatureRecord) → IsTile bytes.now tile
        → ¬ IsFeatureOf tile layer feature layer_record feature_record) }
{
    let span = span_of_scope(bytes, &Scope::Feature(layer, feature))?;
    Some(MessageBytes { bytes, span })
}

impl<'a> MessageBytes<'a> {
    /// A walk over its tags.
    pub(crate) fn tags(&self) -> Numbers<'a>
        ensures { (feature_record : FeatureRecord) → IsFeatureAt self.now feature_record
            → NumbersLeft result feature_record.tags None }
    {
        Numbers::new(self.bytes, self.span.from, self.span.to, TAGS)
    }

    /// A walk over the numbers of its geometry.
    pub(crate) fn geometry(&self) -> Numbers<'a>
        ensures { (feature_record : FeatureRecord) → IsFeatureAt self.now feature_record
            → NumbersLeft result feature_record.geometry None }
    {
        Numbers::new(self.bytes, self.span.from, self.span.to, GEOMETRY)
    }

    /// Whether its geometry has this command fault, at this index.
    pub(crate) fn breaks_commands(&self, code: CommandCode, index: usize) -> bool
        ensures { (feature_record : FeatureRecord) → IsFeatureAt self.now feature_record
            → (IsTrue result ↔ BreaksCommands feature_record.kind feature_record.geometry
            (command_code code) index) }
    {
        let Some(kind) = self.kind() else {
            return false;
        };
        breaks_commands(self.geometry(), u64::from(kind), code, index)
    }

    /// Whether it is of the type of polygons, and its geometry draws rings.
    pub(crate) fn draws_rings(&self) -> bool
        ensures { (feature_record : FeatureRecord) → IsFeatureAt self.now feature_record →
            (IsTrue result ↔ ((rings : List (List Position))
            × HasRings feature_record.kind feature_record.geometry rings)) }
    {
        self.kind() == Some(POLYGON) && draws_rings(self.geometry())
    }

    /// A walk over the vertices of its rings, for a feature that draws rings.
    pub(crate) fn vertices(&self) -> Vertices<'a>
        ensures { (rings : List (List Position)) → DrawsRings self.now rings
            → RingsLeft result rings }
    {
        Vertices::new(self.geometry())
    }

    /// The number of its geometry type.
    fn kind(&self) -> Option<u32>
        ensures { (feature_record : FeatureRecord) → IsFeatureAt self.now feature_record
            → result ≡ Some feature_record.kind }
    {
        number_of(self, GEOMETRY_TYPE)
    }
}
