//! Mends the rings of a feature: proposes rings that keep a profile in place of rings that break it.
//! The proposal is safe and total; what is proved of it is that its positions are near the rings
//! that were given, and that polygons that broke no rule are still there.
#![tactic(auto)]

mod kept;
mod loose;
mod mending;
mod near;

pub use loose::loose_rings;
pub use mending::{MendedRings, mend_rings};
pub use mvt_segments::Work;
