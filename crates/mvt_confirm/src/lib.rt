//! A separate checker of faults: whether a fault is true of a tile's bytes. It takes no memory.
#![tactic(auto)]

mod apart;
mod checker;
mod commands;
mod crossings;
mod edge_tests;
mod feature_message;
mod geometry;
mod layers;
mod meeting;
mod message_bytes;
mod moves;
mod nesting;
mod numbers;
mod polygons;
mod ring_edges;
mod ring_faults;
mod rings;
mod span;
mod tags;
mod tile;
mod vertices;
mod wire_fault;

pub use checker::{confirm, confirm_with};
