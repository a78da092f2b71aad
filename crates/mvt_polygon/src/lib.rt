//! Rings and polygons: rings with a fault of their own, which rings make up which polygon, edges
//! that meet wrongly, holes that aren't where they should be (Mapbox Vector Tile Specification 2.1,
//! section 4.3.4.4), and vertices of one polygon in another.
#![tactic(auto)]

mod apart;
mod nesting;
mod polygon;
mod polygons;
mod rings;

pub use apart::{ApartFault, check_apart, is_in_polygon, polygon_around};
pub use mvt_sweep::{Meeting, find_meeting, find_meeting_with};
pub use nesting::{NestFault, check_nesting, check_nesting_once, fault_of_first_vertex};
pub use polygon::{PolygonFault, check_polygon};
pub use polygons::{groups, polygon_end};
pub use rings::{RingFault, check_rings};
