//! Tests of `mvt_gate`: its judge on rows of bytes, and its engines on devices of every manner. They are
//! a crate of their own, so that the judge is not proved a second time with them.
#![tactic(auto)]

#[cfg(test)]
mod advice;
#[cfg(test)]
mod check;
#[cfg(test)]
mod confirm;
#[cfg(test)]
mod device;
#[cfg(test)]
mod dump;
#[cfg(test)]
mod engine;
#[cfg(test)]
mod faults;
#[cfg(test)]
mod fields;
#[cfg(test)]
mod one_walk;
#[cfg(test)]
mod quick;
#[cfg(test)]
mod runs;
#[cfg(test)]
mod verdict;
