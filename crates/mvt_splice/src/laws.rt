//! The laws of spliced tiles, as contracts of functions that do nothing.

ghost use Rattle.std.specs.Prelude.{◌≡◌, ◌≤◌, ℕ, List, [], ◌∷◌};
ghost use Rattle.mvt_rules.specs.Shows.{IsFeatureIn, ShowsBy};
ghost use Rattle.mvt_rules.specs.Valid.{AreValidRingsBy, IsValidFeatureBy, ValidBy};
ghost use Rattle.mvt_fault.specs.declared.fault.Fault.{Fault};
ghost use Rattle.mvt_fault.specs.declared.profile.Profile.{Profile};
ghost use Rattle.mvt_plane.specs.Commands.Figure.{polygon};
ghost use Rattle.mvt_plane.specs.FeatureGeometry.{HasRings, type_number};
ghost use Rattle.mvt_plane.specs.Position.{Position};
ghost use Rattle.mvt_splice.specs.FeatureFaults.{IsOfFeature, AreRightTags};
ghost use Rattle.mvt_splice.specs.Splice.{Fate, redrawn, fate_in, IsSpliced};
ghost use Rattle.mvt_splice.specs.SplicedTile.{feature_after, layer_after, spliced_tile, DrawsSmall, IsValidAfter, IsValidOnceSpliced};
ghost use Rattle.mvt_splice.specs.declared.change.Change.{Change};
ghost use Rattle.mvt_rules.specs.Rules.{IsFeatureOf};
ghost use Rattle.mvt_rules.specs.Tile.{FeatureRecord, LayerRecord, TileRecord, IsTile};

pub mod examples;

/// A tile with changes is the tile of the features that are left: its layers have the same names,
/// keys, values, versions and extents, and each feature that was redrawn has its id, its tags and
/// its type.
pub fn spliced_is_tile()
    ensures { (changes : List Change) (bytes out : List ℕ) (tile : TileRecord)
        → IsSpliced changes bytes out → IsTile bytes tile → DrawsSmall (fate_in changes) tile
        → IsTile out (spliced_tile (fate_in changes) tile) }
{}

/// What is left of a feature stands in its layer, at its ordinal or before it; and each feature of
/// the new tile is what is left of one of the old.
pub fn features_left()
    ensures there { (fates : ℕ → ℕ → Fate) (tile : TileRecord) (layer feature : ℕ)
        (layer_record : LayerRecord) (feature_record left : FeatureRecord)
        → IsFeatureOf tile layer feature layer_record feature_record
        → feature_after (fates layer feature) feature_record ≡ left ∷ []
        → (ordinal : ℕ) × (ordinal ≤ feature) × IsFeatureOf (spliced_tile fates tile) layer ordinal
        (layer_after (fates layer) layer_record) left }
    ensures from { (fates : ℕ → ℕ → Fate) (tile : TileRecord) (layer ordinal : ℕ)
        (left_layer : LayerRecord) (left : FeatureRecord)
        → IsFeatureOf (spliced_tile fates tile) layer ordinal left_layer left
        → (layer_record : LayerRecord) × (feature : ℕ) × (feature_record : FeatureRecord)
        × IsFeatureOf tile layer feature layer_record feature_record
        × (left_layer ≡ layer_after (fates layer) layer_record)
        × (feature_after (fates layer feature) feature_record ≡ left ∷ []) }
{}

/// A tile with changes is valid, where its layers keep their rules, the features that stay are
/// valid, and those that are redrawn are valid with their new numbers.
pub fn spliced_is_valid()
    ensures { (profile : Profile) (changes : List Change) (bytes out : List ℕ) (tile : TileRecord)
        → IsSpliced changes bytes out → IsTile bytes tile
        → IsValidOnceSpliced profile (fate_in changes) tile → ValidBy profile out }
{}

/// A feature that no true fault names is valid.
pub fn unnamed_is_valid()
    ensures { (profile : Profile) (bytes : List ℕ) (layer feature : ℕ) (layer_record : LayerRecord)
        (feature_record : FeatureRecord)
        → IsFeatureIn bytes layer feature layer_record feature_record
        → ((fault : Fault) → ShowsBy profile bytes fault → ¬ IsOfFeature layer feature fault)
        → IsValidFeatureBy profile layer_record feature_record }
{}

/// A feature of polygons with right tags is valid once it is redrawn with the rings of valid
/// polygons.
pub fn redrawn_is_valid()
    ensures { (profile : Profile) (layer_record : LayerRecord) (feature_record : FeatureRecord)
        (geometry : List ℕ) (rings : List (List Position))
        → AreRightTags layer_record feature_record → feature_record.kind ≡ type_number polygon
        → HasRings (type_number polygon) geometry rings → AreValidRingsBy profile rings
        → IsValidAfter profile (redrawn geometry) layer_record feature_record }
{}
