//! Tests of `mvt_status`, `mvt_sweep`, `mvt_polygon` and `mvt_feature`: rings with known faults, and
//! generated ones that are judged plainly too. They are a crate of their own, so that those aren't
//! proved a second time with them.
#![tactic(auto)]

#[cfg(test)]
mod apart;
#[cfg(test)]
mod dice;
#[cfg(test)]
mod features;
#[cfg(test)]
mod holes;
#[cfg(test)]
mod meetings;
#[cfg(test)]
mod polygons;
#[cfg(test)]
mod rings;
#[cfg(test)]
mod status;
