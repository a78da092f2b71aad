//! The laws of advice and of first faults, as contracts of functions that do nothing. They speak of
//! the definitions alone.

ghost use Rattle.std.specs.Prelude.{◌≡◌, ◌↔◌, ℕ, List, [], Some, slice_get};
ghost use Rattle.mvt_fault.specs.Place.{IsLeast, place_of};
ghost use Rattle.mvt_fault.specs.declared.fault.Fault.{Fault};
ghost use Rattle.mvt_tile.specs.Advice.{IsAdvice};
ghost use Rattle.mvt_tile.specs.FirstFaults.{AreFirstFaults, IsFaultOfLayer};
ghost use Rattle.mvt_tile.specs.FreeFaults.{IsLeastOr};
ghost use Rattle.mvt_tile.specs.RuleFaults.{BreaksAnyRule, IsAfterTags, IsFaultOfFeature, KeepsRules};
ghost use Rattle.mvt_tile.specs.declared.advice.Advice.{Advice};
ghost use Rattle.mvt_rules.specs.Tile.{FeatureRecord, LayerRecord, TileRecord};

use crate::rules::FeatureRule;

/// A tile has one advice.
pub fn one_advice()
    ensures { (tile : TileRecord) (advice other : List Advice) → IsAdvice tile advice
        → IsAdvice tile other → advice ≡ other }
{}

/// Each of a tile's first faults is a fault of the tile, and the first of them is its first. There
/// is none exactly where the tile has no fault, and then it keeps the rules. A tile that keeps them
/// has none, where no feature that keeps the further rule breaks it.
pub fn first_faults<R: FeatureRule>()
    ensures each { (tile : TileRecord) (faults : List Fault)
        → AreFirstFaults R.IsFree R.IsBroken R.IsKept tile faults → (at : ℕ) (fault : Fault)
        → slice_get faults at ≡ Some fault → BreaksAnyRule R.IsBroken tile fault }
    ensures first { (tile : TileRecord) (faults : List Fault)
        → AreFirstFaults R.IsFree R.IsBroken R.IsKept tile faults
        → ((feature_record : FeatureRecord) (layer feature : ℕ) (fault : Fault)
        → R.IsBroken feature_record layer feature fault
        → IsAfterTags layer feature (place_of fault))
        → (fault : Fault) → slice_get faults 0 ≡ Some fault
        → IsLeastOr R.IsFree (BreaksAnyRule R.IsBroken tile) fault }
    ensures none { (tile : TileRecord) (faults : List Fault)
        → AreFirstFaults R.IsFree R.IsBroken R.IsKept tile faults
        → (faults ≡ []) ↔ ((fault : Fault) → ¬ BreaksAnyRule R.IsBroken tile fault) }
    ensures kept { (tile : TileRecord) → AreFirstFaults R.IsFree R.IsBroken R.IsKept tile []
        → KeepsRules R.IsKept tile }
    ensures none_where_kept { (tile : TileRecord) (faults : List Fault)
        → AreFirstFaults R.IsFree R.IsBroken R.IsKept tile faults → KeepsRules R.IsKept tile
        → ((feature_record : FeatureRecord) (layer feature : ℕ) (fault : Fault)
        → R.IsKept feature_record → ¬ R.IsBroken feature_record layer feature fault)
        → faults ≡ [] }
{}

/// Each layer and each feature of a tile has one first fault at most among them.
pub fn one_fault_of_each<R: FeatureRule>()
    ensures layer { (tile : TileRecord) (faults : List Fault)
        → AreFirstFaults R.IsFree R.IsBroken R.IsKept tile faults → (layer at other : ℕ)
        (fault again : Fault) → slice_get faults at ≡ Some fault
        → slice_get faults other ≡ Some again → IsLeast (IsFaultOfLayer tile layer) fault
        → IsLeast (IsFaultOfLayer tile layer) again → at ≡ other }
    ensures feature { (tile : TileRecord) (faults : List Fault)
        → AreFirstFaults R.IsFree R.IsBroken R.IsKept tile faults → (layer feature at other : ℕ)
        (layer_record : LayerRecord) (feature_record : FeatureRecord) (fault again : Fault)
        → slice_get faults at ≡ Some fault → slice_get faults other ≡ Some again
        → IsLeast (IsFaultOfFeature R.IsBroken layer_record feature_record layer feature) fault
        → IsLeast (IsFaultOfFeature R.IsBroken layer_record feature_record layer feature) again
        → at ≡ other }
{}
