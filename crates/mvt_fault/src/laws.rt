//! The laws of the order of faults, as contracts of functions that do nothing, or do nothing but
//! compare. Whoever searches for the first fault of a tile can use them.

ghost use Rattle.std.specs.Prelude.{◌≡◌, ◌≢◌, ◌↔◌, ◌⊎◌, ℕ, List, length, IsTrue};
ghost use Rattle.mvt_fault.specs.Place.{place_of, ComesFirst, AreMeetingsInOne};

use crate::fault::Fault;
use crate::order::Place;
use std::cmp::Ordering;

/// Each fault's place has ten numbers.
pub fn ten_numbers()
    ensures { (fault : Fault) → length (place_of fault) ≡ 10 }
{}

/// Places are in a total order.
pub fn one_order()
    ensures reflexive { (place : List ℕ) → ComesFirst place place }
    ensures antisymmetric { (first second : List ℕ) → ComesFirst first second
        → ComesFirst second first → first ≡ second }
    ensures transitive { (first second third : List ℕ) → ComesFirst first second
        → ComesFirst second third → ComesFirst first third }
    ensures total { (first second : List ℕ) → ComesFirst first second ⊎ ComesFirst second first }
{}

/// `cmp` answers by that order.
#[tactic(auto, using(crate::proofs::Places::less_decides, crate::proofs::Places::equal_decides, crate::proofs::Places::greater_decides))]
pub fn ordering_of(first: &Place, second: &Place) -> Ordering
    ensures less { (result ≡ Ordering.Less) ↔ (ComesFirst first.now second.now
        × (first.now ≢ second.now)) }
    ensures equal { (result ≡ Ordering.Equal) ↔ (first.now ≡ second.now) }
    ensures greater { (result ≡ Ordering.Greater) ↔ (ComesFirst second.now first.now
        × (first.now ≢ second.now)) }
{
    first.cmp(second)
}

/// `<=` answers by that order.
#[tactic(auto, using(crate::proofs::Places::up_to_decides))]
pub fn comes_first(first: &Place, second: &Place) -> bool
    ensures { IsTrue result ↔ ComesFirst first.now second.now }
{
    first <= second
}

/// No two faults have one place, but for the meetings of edges in one polygon.
pub fn one_fault_a_place()
    ensures { (fault other : Fault) → place_of fault ≡ place_of other
        → (fault ≡ other) ⊎ AreMeetingsInOne fault other }
{}

/// All meetings of edges in one polygon have one place.
pub fn meetings_share_a_place()
    ensures { (fault other : Fault) → AreMeetingsInOne fault other
        → place_of fault ≡ place_of other }
{}
