//! The tests of positions, edges and rings, a module for each file.
mod count;
mod crossing;
mod edge;
mod hpoint;
mod measure;
mod parity;
mod point;
