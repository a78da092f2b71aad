//! The program's runs that write no tile, and its exit statuses.
#![tactic(auto)]

mod claim;
mod status;
mod tile;

pub use claim::run_confirm;
pub use status::{BAD_DEVICE, BAD_WORDS, end};
pub use tile::{Engine, run_engine};
