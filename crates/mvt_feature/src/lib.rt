//! The first fault of a feature whose polygons are kept apart: none may cross, touch or lie in
//! another but in a hole (Mapbox Vector Tile Specification 2.1, section 4.3.4.4, more strictly).
#![tactic(auto)]

mod feature;
pub mod laws;

pub use feature::{FeatureCause, FeatureFault, check_feature, check_feature_quickly};
