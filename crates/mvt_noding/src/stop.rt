//! Why noding stops before its end.
ghost use Rattle.std.specs.Prelude.{◌≡◌, ◌≤◌, ◌+◌, OnOk};

use mvt_segments::Work;
use std::alloc::AllocError;

/// Why noding stops before its end.
#[derive(Clone, Copy)]
pub(crate) enum Stop {
    /// Memory was refused.
    Memory,
    /// The work doesn't suffice.
    Work,
}

impl From<AllocError> for Stop {
    fn from(_: AllocError) -> Stop {
        Stop::Memory
    }
}

/// Takes so much of the work that is left.
#[inline]
pub(crate) fn spend(work: &mut Work, amount: u64) -> Result<(), Stop>
    ensures spent { OnOk result (work.new + amount ≡ work.old) }
    ensures no_more { work.new ≤ work.old }
{
    if work.spend(amount) {
        Ok(())
    } else {
        Err(Stop::Work)
    }
}
