//! The laws of quick faults, as contracts of functions that do nothing.

ghost use Rattle.std.specs.Prelude.{◌↔◌, List, Option, None};
ghost use Rattle.mvt_plane.specs.Position.{Position};
ghost use Rattle.mvt_feature.specs.Feature.{IsFeatureAnswer, IsFirstFault};
ghost use Rattle.mvt_sweep.specs.Meeting.{NoMeeting};
ghost use Rattle.mvt_feature.specs.QuickFeature.{IsQuickAnswer, IsQuickFault};
ghost use Rattle.mvt_feature.specs.declared.feature.FeatureFault.{FeatureFault};

/// Where no edges of a feature meet wrongly, its quick fault is its first fault. A feature with a
/// fault has a quick one, and one with a quick fault has a fault: nothing is answered for both or
/// for neither.
pub fn quick_faults()
    ensures same { (rings : List (List Position)) (found : Option FeatureFault) → NoMeeting rings
        → IsQuickAnswer rings found ↔ IsFeatureAnswer rings found }
    ensures first { (rings : List (List Position)) (fault : FeatureFault) → IsFirstFault rings fault
        → IsQuickFault rings fault }
    ensures holds { (rings : List (List Position)) (fault : FeatureFault)
        → IsQuickFault rings fault → ¬ IsFeatureAnswer rings None }
{}
