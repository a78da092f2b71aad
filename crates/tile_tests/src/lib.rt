//! Tests of `mvt_tile`, `mvt_draw` and `mvt_confirm`: tiles and their rules, figures, and which faults
//! are true. They are a crate of their own, so that those aren't proved a second time with them.
#![tactic(auto)]

#[cfg(test)]
mod checker;
#[cfg(test)]
mod figures;
#[cfg(test)]
mod tile;
