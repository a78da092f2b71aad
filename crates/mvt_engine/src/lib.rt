//! What the engines do that judge nothing: each reads a tile from a device, and writes the line of its
//! fields, of what it holds, or of whether a fault is true of it.
#![tactic(auto)]

mod advice;
mod confirm;
mod dump;
mod engine;
mod fields;
mod tally;

pub use advice::{advice_text, push_advice};
pub use confirm::{confirm_streams, confirm_streams_with};
pub use dump::{Part, dump_stream, dump_text, push_list, push_string};
pub use engine::{EngineFault, Outcome, Task, fault_line, read_whole, run, write_whole};
pub use fields::fields_stream;
pub use tally::Tally;
