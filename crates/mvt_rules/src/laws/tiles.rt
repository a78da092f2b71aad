//! The laws of a tile's messages, of its record and of its wire faults.

ghost use Rattle.std.specs.Prelude.{◌≡◌, ℕ, ◌≤◌, ◌⊎◌, List, length, take, None};
ghost use Rattle.mvt_wire.specs.Field.{Entry};
ghost use Rattle.mvt_wire.specs.Message.{IsMessage};
ghost use Rattle.mvt_rules.specs.Tile.{KeepsSchema, FeatureRecord, IsFeature, TileRecord, IsTile, LayerRecord};
ghost use Rattle.mvt_rules.specs.WireFault.{MessageFault, WireFault};
ghost use Rattle.mvt_wire.specs.declared.cause.WireCause.{WireCause};
ghost use Rattle.mvt_wire.specs.declared.schema.Message.{Message};
ghost use Rattle.mvt_wire.specs.Payload.{Span};
ghost use Rattle.mvt_wire.specs.Number.{AreSmall};
ghost use Rattle.mvt_wire.specs.Numbers.{NumbersEnd};
ghost use Rattle.mvt_wire.specs.declared.scope.Scope.{Scope};
ghost use Rattle.mvt_rules.specs.Rules.{IsFeatureOf};

/// The bytes from a place on are a whole message that keeps its schema, or have a fault of that
/// message, and not both (Mapbox Vector Tile Specification 2.1, section 4).
pub fn schema_or_message_fault()
    ensures some { (message : Message) (bytes : List ℕ) (from : ℕ) → from ≤ length bytes →
        ((entries : List Entry) × IsMessage bytes from entries
        × KeepsSchema message entries) ⊎ ((cause : WireCause)
        × MessageFault message bytes from cause) }
    ensures not_both { (message : Message) (bytes : List ℕ) (from : ℕ) (entries : List Entry)
        (cause : WireCause) →
        IsMessage bytes from entries → KeepsSchema message entries
        → ¬ MessageFault message bytes from cause }
{}

/// The tags and the geometry of a feature are the numbers of its fields 2 and 4, which end with the
/// whole message: a walk over these fields has just these numbers left (Mapbox Vector Tile
/// Specification 2.1, section 4.2).
pub fn feature_numbers_end()
    ensures tags { (bytes : List ℕ) (span : Span) (feature : FeatureRecord) →
        IsFeature bytes span feature → NumbersEnd (take span.to bytes) span.from 2 feature.tags
        None }
    ensures geometry { (bytes : List ℕ) (span : Span) (feature : FeatureRecord) →
        IsFeature bytes span feature → NumbersEnd (take span.to bytes) span.from 4 feature.geometry
        None }
{}

/// Bytes are a tile, or have a wire fault, and not both (Mapbox Vector Tile Specification 2.1,
/// section 4).
pub fn tile_or_wire_fault()
    ensures some { (bytes : List ℕ) →
        ((tile : TileRecord) × IsTile bytes tile) ⊎ ((scope : Scope) × (cause : WireCause)
        × WireFault bytes scope cause) }
    ensures not_both { (bytes : List ℕ) (tile : TileRecord) (scope : Scope) (cause : WireCause) →
        IsTile bytes tile → ¬ WireFault bytes scope cause }
{}

/// Bytes are at most one tile (Mapbox Vector Tile Specification 2.1, section 4).
pub fn one_tile()
    ensures { (bytes : List ℕ) (first second : TileRecord) → IsTile bytes first
        → IsTile bytes second → first ≡ second }
{}

/// The numbers of a geometry have 32 bits (Mapbox Vector Tile Specification 2.1, section 4.3).
pub fn geometry_has_32_bits()
    ensures { (bytes : List ℕ) (tile : TileRecord) (layer feature : ℕ) (layer_record : LayerRecord)
        (feature_record : FeatureRecord) →
        IsTile bytes tile → IsFeatureOf tile layer feature layer_record feature_record
        → AreSmall feature_record.geometry }
{}
