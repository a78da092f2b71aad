//! Mends a tile whose polygons break the rules: it hands back one that the judge accepts, with all
//! else byte for byte as it was, and says what it changed.
#![tactic(auto)]

mod changes;
mod feature;
mod features;
pub mod laws;
mod measures;
mod mendable;
mod mending;
mod place;
mod report;
mod stream;

pub use measures::Measures;
pub use mending::{
    FeatureChange, MendedFeature, MendedTile, Mending, WhatChanged, mend, mend_with,
};
pub use report::report_text;
pub use stream::mend_stream;
