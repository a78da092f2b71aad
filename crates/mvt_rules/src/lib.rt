//! What the promise of the gate means: a tile's record, its wire faults, the rules between its
//! parts, valid tiles, and the faults that are true of bytes. The definitions are in `specs/`; here
//! are the laws about them.
#![tactic(auto)]

pub mod laws;
