//! Tests of `mvt_noding`, `mvt_mend`, `mvt_splice` and `mvt_mender`: segments that are split, rings that
//! break rules, tiles with changes byte for byte, and tiles that are handed back. They are a crate of
//! their own, so that those aren't proved a second time with them.
#![tactic(auto)]

#[cfg(test)]
mod noding;
#[cfg(test)]
mod rings;
#[cfg(test)]
mod splice;
#[cfg(test)]
mod tiles;
