//! Why a search gives up.

ghost use Rattle.std.specs.Prelude.{◌≤◌};

use mvt_segments::Work;
use std::alloc::{AllocError, AllocFailed};

/// Why a search ends with no answer.
#[derive(Clone, Copy)]
pub(crate) enum Stop {
    /// Memory was refused.
    Memory,
    /// The work doesn't suffice, or what was given isn't as it should be.
    GaveUp,
}

impl From<AllocError> for Stop {
    fn from(_refused: AllocError) -> Stop {
        Stop::Memory
    }
}

impl<T: Drop> From<AllocFailed<T>> for Stop {
    fn from(_refused: AllocFailed<T>) -> Stop {
        Stop::Memory
    }
}

/// Puts a number at a place of a list, or gives up where there is none.
#[inline]
pub(crate) fn put(list: &mut [u32], place: u32, number: u32) -> Result<(), Stop> {
    match list.get_mut(place as usize) {
        Some(there) => {
            *there = number;
            Ok(())
        }
        None => Err(Stop::GaveUp),
    }
}

/// A place as a number of 32 bits, or gives up where it has more.
#[inline]
pub(crate) fn numbered(place: usize) -> Result<u32, Stop> {
    match u32::try_from(place) {
        Ok(number) => Ok(number),
        Err(_) => Err(Stop::GaveUp),
    }
}

/// Takes so much of the work that is left, or gives up.
#[inline]
pub(crate) fn spend(work: &mut Work, amount: u64) -> Result<(), Stop> {
    if work.spend(amount) {
        Ok(())
    } else {
        Err(Stop::GaveUp)
    }
}

/// Takes of the work that is left what a search took, which began with as much and has this left.
pub(crate) fn spend_down(work: &mut Work, left: Work)
    ensures no_more { work.new ≤ work.old }
{
    let _ = work.spend(work.left().saturating_sub(left.left()));
}

/// An answer, or None in place of one where a search gave up.
pub(crate) fn answered<T>(answer: Result<T, Stop>) -> Result<Option<T>, AllocError> {
    match answer {
        Ok(value) => Ok(Some(value)),
        Err(Stop::GaveUp) => Ok(None),
        Err(Stop::Memory) => Err(AllocError),
    }
}
