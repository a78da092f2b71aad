//! The engine of `confirm`: whether a fault is true of a tile, as one line of JSON.
ghost use Rattle.std.specs.Prelude.{ℕ, List, IfOk, string_bytes};
ghost use Rattle.mvt_fault.specs.Text.{Reads};
ghost use Rattle.mvt_engine.specs.Claim.{IsRunOnClaim};
ghost use Rattle.mvt_engine.specs.Confirm.{IsConfirmAnswer, IsConfirmAnswerBy, IsRefusedClaim};

use crate::engine::{ClaimTask, EngineFault, Outcome, run_on_claim};
use crate::tally::Tally;
use mvt_confirm::confirm_with;
use mvt_fault::{Fault, FaultTextError, Profile, fault_from_text};
use std::alloc::{AllocError, Global};
use std::io::{Read, Write};

/// Reads a whole tile and then a whole fault text, each of at most 67,108,864 bytes, and writes
/// whether the fault is true of the tile's bytes (`mvt_confirm::confirm` has the full rules), as
/// the line `{"confirmed":true}` or `{"confirmed":false}` with one LF. `Read` and `Write` come only
/// where a device failed or the devices were interrupted too often, and `TooLarge` only where an
/// input is too large, as the counts show; `NotJson`, `NotAFault` and `FaultRange` come only where
/// the text is none of a fault. The only other error is `Memory`.
pub fn confirm_streams<R: Read, Q: Read, W: Write>(
    alloc: Global,
    tile: &mut Tally<R>,
    claim: &mut Tally<Q>,
    writer: &mut Tally<W>,
) -> Result<Outcome, EngineFault>
    ensures { IsRunOnClaim IsConfirmAnswer IsRefusedClaim
        R.remaining Q.remaining W.contents tile.old tile.new claim.old claim.new writer.old
        writer.new result }
{
    confirm_streams_with(alloc, Profile::Polygon, tile, claim, writer)
}

/// The same by a profile (`mvt_confirm::confirm_with` has the full rules).
pub fn confirm_streams_with<R: Read, Q: Read, W: Write>(
    alloc: Global,
    profile: Profile,
    tile: &mut Tally<R>,
    claim: &mut Tally<Q>,
    writer: &mut Tally<W>,
) -> Result<Outcome, EngineFault>
    ensures { IsRunOnClaim (IsConfirmAnswerBy profile) IsRefusedClaim
        R.remaining Q.remaining W.contents tile.old tile.new claim.old claim.new writer.old
        writer.new result }
{
    run_on_claim(alloc, &ConfirmFault { profile }, tile, claim, writer)
}

/// To say whether a fault is true of a tile, by a profile.
#[derive(Clone, Copy)]
struct ConfirmFault {
    profile: Profile,
}

impl ClaimTask for ConfirmFault {
    ghost IsAnswer = { λ task. IsConfirmAnswerBy task.profile };

    ghost IsRefused = { λ _. IsRefusedClaim };

    fn answer(
        &self,
        alloc: Global,
        tile: &[u8],
        claim: &[u8],
    ) -> Result<(Outcome, String), FaultTextError> {
        match fault_from_text(alloc, claim) {
            Ok(fault) => match confirm_line(alloc, self.profile, tile, &fault) {
                Ok(answer) => Ok(answer),
                Err(AllocError) => Err(FaultTextError::Memory),
            },
            Err(error) => Err(error),
        }
    }
}

/// Whether the fault is true of the tile by the profile, and the line that says so, with its LF.
fn confirm_line(
    alloc: Global,
    profile: Profile,
    tile: &[u8],
    fault: &Fault,
) -> Result<(Outcome, String), AllocError>
    ensures { IfOk result (λ answer. (claimed : List ℕ) → Reads claimed fault.now
        → IsConfirmAnswerBy profile tile.now claimed answer.0 (string_bytes answer.1)) }
{
    if confirm_with(profile, tile, fault) {
        let line = String::from_str(alloc, "{\"confirmed\":true}\n")?;
        Ok((Outcome::Yes, line))
    } else {
        let line = String::from_str(alloc, "{\"confirmed\":false}\n")?;
        Ok((Outcome::No, line))
    }
}
