//! Positions, edges and rings, and rational points where edges meet.

pub(crate) mod crossing;
pub(crate) mod edge;
pub(crate) mod hpoint;
pub(crate) mod measure;
pub(crate) mod parity;
pub(crate) mod point;
pub(crate) mod step;
