//! Tiles and their rules.

mod advice;
mod layers;
mod reading;
mod rules;
mod tags;
mod wire;
