//! Segments of a feature's rings, their orders by the keys of their ends, and the one limit on the work
//! with them.
#![tactic(auto)]

mod numbers;
mod order;
mod segment;
mod witnesses;
mod work;

pub use numbers::short;
pub use order::{
    Frame, ends_of, merge_into, numbers_of_pairs, packed_keys, sorted_by_ends, sorted_pairs,
};
pub use segment::{HalfEdge, Keyed, Segment, Tally, Winding};
pub use witnesses::WitnessRange;
pub use work::Work;
