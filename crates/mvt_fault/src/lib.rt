//! The faults of a vector tile: what is wrong and where, with each fault's code, its place in the
//! order of faults, and its JSON text.
#![tactic(auto)]

mod command;
mod fault;
pub mod laws;
mod order;
mod profile;
mod reading;
mod ring;
mod tag;
#[cfg(test)]
mod tests;
mod text;

pub use command::CommandCode;
pub use fault::{Fault, code, place, wire_fault_in};
pub use mvt_wire::Scope;
pub use order::Place;
pub use profile::Profile;
pub use reading::{FaultTextError, fault_from_text};
pub use ring::{RingCode, RingEdge};
pub use tag::TagCode;
pub use text::fault_text;
