//! The plane of a vector tile's geometry: positions, and how figures of them are spelled as
//! commands; edges, areas, what is inside a ring, and where two edges meet. No call takes memory.
#![tactic(auto)]

mod command;
mod count;
mod geometry;
pub mod laws;
#[cfg(test)]
mod tests;

pub use command::{CLOSE_PATH, GREATEST_COUNT, LINE_TO, MOVE_TO};
pub use count::Count;
pub use geometry::crossing::common;
pub use geometry::edge::{Edge, on_edge};
pub use geometry::hpoint::Hpoint;
pub use geometry::measure::{area_part, orient, passes_below, side, sweep_key, twice_area};
pub use geometry::parity::inside;
pub use geometry::point::{GREATEST_COORDINATE, Point};
