//! Splits segments until they have nothing in common but ends.
//!
//! It goes in rounds. Each finds all pairs that meet elsewhere than in an end of both, and splits
//! the segments there: exactly where an end of the one lies within the other, and at the nearest
//! position where they cross. The pieces of a crossing lie a little beside their segment, so they
//! may meet others: the next round tests them. A round tests no pair that an earlier one did.
//!
//! Not all vertices near a segment become its ends, as they do where segments are rounded to hot
//! pixels, since then one fault would bend edges all over a polygon. The price is that the rounds
//! may not end. Real features take one to three.
#![tactic(auto)]

mod bounds;
mod end_order;
mod meetings;
mod packing;
mod pieces;
mod rounds;
mod runs;
mod search;
mod splitting;
mod stop;
mod tree;

pub use rounds::node;
