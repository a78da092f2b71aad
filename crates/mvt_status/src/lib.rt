//! The ordered status of a sweep over edges: the numbers of the edges that the sweep's line meets,
//! in their order along it.
#![tactic(auto)]

pub mod laws;
mod node;
mod search;
mod status;
mod tree_status;
mod vec_status;

pub use status::{Split, Status};
pub use tree_status::TreeStatus;
pub use vec_status::VecStatus;
