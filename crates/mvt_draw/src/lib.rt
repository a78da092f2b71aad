//! The geometry of features: commands drawn as figures, figures spelled as commands, and what keeps
//! commands from being a figure.
#![tactic(auto)]

mod checking;
mod commands;
mod drawing;
mod figure;
mod passing;
mod reading;
mod ring_buffer;
mod sink;
mod spelling;

pub use checking::command_fault;
pub use drawing::{DrawFault, draw};
pub use figure::Figure;
pub use passing::{draws_lines, draws_points};
pub use ring_buffer::RingBuffer;
pub use spelling::{SpellFault, spell};
