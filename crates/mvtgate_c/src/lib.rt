//! The gate for programs in C, and in any language that calls C (Mapbox Vector Tile Specification
//! 2.1): the exports of a static library.
//! Each says what it writes and writes nothing else, and none keeps anything from one call to the
//! next.
#![tactic(auto)]

mod advise;
mod check;
mod confirm;
mod dump;
mod fault_text;
mod faults;
mod mend;
mod profile;
mod status;
mod text;
mod version;

pub use advise::mvtgate_advise;
pub use check::{mvtgate_check, mvtgate_check_quickly};
pub use confirm::mvtgate_confirm;
pub use dump::mvtgate_dump;
pub use faults::{mvtgate_faults, mvtgate_faults_quickly};
pub use mend::mvtgate_mend;
pub use version::mvtgate_version;
