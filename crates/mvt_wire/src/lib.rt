//! The wire encoding of Protocol Buffers over borrowed bytes: varints, the fields of a message and
//! their numbers; and the schema of a tile's messages.
#![tactic(auto)]

mod cause;
mod embedded;
mod field;
pub mod field_number;
mod fields;
mod key;
pub mod laws;
mod numbers;
mod part;
pub mod payload;
pub mod schema;
mod scope;
#[cfg(test)]
mod tests;
mod utf8;
mod varint;
mod zigzag;

pub use cause::{WireCause, WireCode};
pub use embedded::{EmbeddedCheck, EmbeddedScan};
pub use field::{Body, Field};
pub use fields::short_keys::{field_after, fixed_after};
pub use fields::{Fields, defect_or};
pub use numbers::Numbers;
pub use numbers::packed::packed_fault;
pub use numbers::source::{ListedNumbers, NumberSource};
pub use numbers::span::NumberSpan;
pub use numbers::whole::WholeNumbers;
pub use part::Part;
pub use schema::{FieldRule, Message, Occurrence, Shape};
pub use scope::Scope;
pub use utf8::{is_text, text};
pub use varint::{leading_varint, read_varint};
pub use zigzag::{unzigzag32, unzigzag64};
