//! Arranges segments of a feature's rings that meet in ends only: finds the faces between them and what
//! is filled, traces the boundary of that, cuts corners where rings touch, and gives rings their roles.
//! It is safe and total. What it proposes is judged again, so its contracts promise that it ends, is
//! safe, and that the work left never grows.
#![tactic(auto)]

mod boundary;
mod corners;
mod faces;
mod groups;
mod lists;
mod outlines;
mod roles;
pub mod sail;

pub use corners::{Apart, add_polygons_apart, add_polygons_shrunk};
pub use faces::{Faces, NO_SEGMENT, Sides, directly_below, faces_of};
pub use groups::Groups;
pub use outlines::Outlines;
pub use roles::{homes_of_strays, polygons_meant};
