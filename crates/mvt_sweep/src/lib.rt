//! A sweep over rings: edges that meet wrongly (Mapbox Vector Tile Specification 2.1, section
//! 4.3.4.4), and which rings are around which; and the bounds of rings.
#![tactic(auto)]

mod bounds;
mod convex;
mod edge_bounds;
mod meeting;
mod pairs;
mod proper;
mod sweep;

pub use bounds::Bounds;
pub use meeting::{Meeting, find_meeting, find_meeting_with, self_intersection};
pub use proper::are_proper;
pub use sweep::{RingNotes, Swept, sweep_rings};
