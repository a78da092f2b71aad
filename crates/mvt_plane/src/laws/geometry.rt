//! The laws of geometry (Mapbox Vector Tile Specification 2.1, section 4.3.4): `points`, `names`
//! and `rings` have those of points on edges, of the named ones, and of a ring's edges; `order` and
//! `sides` those of edges met one after another; `inside` those of what is inside a ring, and
//! `below` those of edges that pass below a position. `examples` tries the definitions on known
//! rings.

pub mod below;
pub mod examples;
pub mod inside;
pub mod names;
pub mod order;
pub mod points;
pub mod rings;
pub mod sides;
