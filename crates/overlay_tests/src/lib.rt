//! Tests of `mvt_overlay`: faces between segments, sails of cones, corners that are cut, and what rings
//! are meant to be. They are a crate of their own, so that it isn't proved a second time with them.
#![tactic(auto)]

#[cfg(test)]
mod corners;
#[cfg(test)]
mod faces;
#[cfg(test)]
mod roles;
#[cfg(test)]
mod sail;
