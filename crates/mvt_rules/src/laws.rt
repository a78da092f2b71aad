//! The laws of the definitions, as contracts of functions that do nothing: `tiles` has those of a
//! tile's bytes, its record and its wire faults, `rings` those of rings and polygons, `validity` those
//! of valid tiles and of true faults. `examples` tries the definitions on known rings.

pub mod examples;
pub mod rings;
pub mod tiles;
pub mod validity;
