//! Puts other geometries in place of those of features of a tile, or leaves features out, and keeps
//! everything else byte for byte (Mapbox Vector Tile Specification 2.1, sections 4.1 and 4.2).
#![tactic(auto)]

mod change;
mod fates;
mod geometry;
pub mod laws;
mod layer;
mod tile;
mod writing;

pub use change::Change;
pub use fates::are_in_order;
pub use tile::splice;
