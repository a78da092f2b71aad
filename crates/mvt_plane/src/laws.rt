//! Laws of the definitions, as contracts of functions that do nothing.

pub mod commands;
pub mod geometry;
