//! The promise of the gate as one contract: what the judge and the separate checker say of the same
//! bytes.
ghost use Rattle.std.specs.Prelude.{◌≡◌, ◌↔◌, IfOk, IsTrue};
ghost use Rattle.mvt_rules.specs.Shows.{Shows, ShowsBy};
ghost use Rattle.mvt_rules.specs.Valid.{Valid, ValidBy};
ghost use Rattle.mvt_fault.specs.Place.{IsLeast};
ghost use Rattle.mvt_fault.specs.declared.fault.Fault.{Fault};

use crate::verdict::{Verdict, judge_with};
use mvt_confirm::confirm_with;
use mvt_fault::{Fault, Profile};
use std::alloc::{AllocError, Global};

/// What the judge and the checker say of the same bytes.
#[derive(Clone, Copy, Debug, PartialEq, Eq)]
pub struct Agreement {
    /// The judge's verdict.
    pub verdict: Verdict,
    /// Whether the verdict is No and the checker accepts its fault.
    pub is_confirmed: bool,
    /// Whether the checker accepts the other fault, which the caller brought.
    pub is_other_confirmed: bool,
}

/// Judges the bytes, and calls `confirm`, the separate checker, on the fault of the verdict and on
/// any other fault. Its contract is the promise of the gate, for every byte string and every fault:
/// the judge says Yes exactly where the bytes are a valid tile (Mapbox Vector Tile Specification
/// 2.1, section 4, by the rules that `judge` names), and otherwise No with a fault that the checker
/// accepts, the one of least place of all that are true of the bytes; and of a valid tile the
/// checker accepts no fault. Each fault is accepted exactly where it is true of the bytes. The only
/// error is that memory was refused.
///
/// A server that runs `judge` needs no second call for it: this one is for whoever wants to see
/// both at once.
pub fn judge_and_confirm(
    alloc: Global,
    bytes: &[u8],
    other: &Fault,
) -> Result<Agreement, AllocError>
    ensures yes_exactly_where_valid { IfOk result (λ said. said.verdict ≡ Verdict.Yes
        ↔ Valid bytes.now) }
    ensures else_no_with_a_confirmed_fault { IfOk result (λ said. ¬ Valid bytes.now
        → (fault : Fault) × (said.verdict ≡ Verdict.No fault) × IsTrue said.is_confirmed) }
    ensures the_fault_of_least_place { IfOk result (λ said. (fault : Fault)
        → said.verdict ≡ Verdict.No fault → IsLeast (Shows bytes.now) fault) }
    ensures no_fault_of_a_valid_tile { IfOk result (λ said. Valid bytes.now
        → ¬ IsTrue said.is_other_confirmed) }

    // Both answers are the checker's own.
    ensures is_confirmed_exactly_where_shown { IfOk result (λ said. IsTrue said.is_confirmed
        ↔ ((fault : Fault) × (said.verdict ≡ Verdict.No fault) × Shows bytes.now fault)) }
    ensures is_other_confirmed_exactly_where_shown { IfOk result (λ said.
        IsTrue said.is_other_confirmed ↔ Shows bytes.now other.now) }
{
    judge_and_confirm_with(alloc, Profile::Polygon, bytes, other)
}

/// The same by a profile: the promise of the gate for `judge_with` and `confirm_with`.
pub fn judge_and_confirm_with(
    alloc: Global,
    profile: Profile,
    bytes: &[u8],
    other: &Fault,
) -> Result<Agreement, AllocError>
    ensures yes_exactly_where_valid { IfOk result (λ said. said.verdict ≡ Verdict.Yes
        ↔ ValidBy profile bytes.now) }
    ensures else_no_with_a_confirmed_fault { IfOk result (λ said. ¬ ValidBy profile bytes.now
        → (fault : Fault) × (said.verdict ≡ Verdict.No fault) × IsTrue said.is_confirmed) }
    ensures the_fault_of_least_place { IfOk result (λ said. (fault : Fault)
        → said.verdict ≡ Verdict.No fault → IsLeast (ShowsBy profile bytes.now) fault) }
    ensures no_fault_of_a_valid_tile { IfOk result (λ said. ValidBy profile bytes.now
        → ¬ IsTrue said.is_other_confirmed) }

    // Both answers are the checker's own.
    ensures is_confirmed_exactly_where_shown { IfOk result (λ said. IsTrue said.is_confirmed
        ↔ ((fault : Fault) × (said.verdict ≡ Verdict.No fault) × ShowsBy profile bytes.now fault)) }
    ensures is_other_confirmed_exactly_where_shown { IfOk result (λ said.
        IsTrue said.is_other_confirmed ↔ ShowsBy profile bytes.now other.now) }
{
    let verdict = judge_with(alloc, profile, bytes)?;
    let is_confirmed = match &verdict {
        Verdict::Yes => false,
        Verdict::No(fault) => confirm_with(profile, bytes, fault),
    };
    Ok(Agreement {
        verdict,
        is_confirmed,
        is_other_confirmed: confirm_with(profile, bytes, other),
    })
}
