//! The messages of a vector tile, over borrowed bytes: their first wire fault, their records, the
//! faults by the rules between their parts, and advice on what no rule forbids.
#![tactic(auto)]

mod advice;
mod feature_bytes;
mod first_places;
pub mod laws;
mod lists;
mod read;
mod record;
mod rules;
mod seen;
mod walk;
mod wire;

pub use advice::{Advice, advise};
pub use feature_bytes::FeatureBytes;
pub use lists::list_of;
pub use read::{ReadFault, read_tile};
pub use record::{Feature, Kind, Layer, Tile, Value};
pub use rules::{
    FeatureRule, check_layers, check_tags, polygon_fault, rule_fault, rule_fault_after, rule_faults,
};
pub use seen::Seen;
pub use walk::{FeatureTest, passes_one_walk};
pub use wire::{wire_fault, wire_fault_after};
