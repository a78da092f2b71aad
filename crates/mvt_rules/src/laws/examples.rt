//! What the definitions say of known rings: `rings` of rings, polygons, meetings and holes,
//! `faults` of the faults that are true of them.

pub mod faults;
pub mod rings;
