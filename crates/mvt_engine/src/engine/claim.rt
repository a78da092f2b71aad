//! What an engine does that has two inputs: read a tile, then a claim about it, and write one line.
ghost use Rattle.std.specs.Prelude.{◌≡◌, ◌≢◌, ℕ, ◌+◌, List, IfOk, IfErr, string_bytes};
ghost use Rattle.mvt_engine.specs.Claim.{IsRunOnClaim};
ghost use Rattle.mvt_engine.specs.declared.engine.Outcome.{Outcome};
ghost use Rattle.mvt_fault.specs.declared.reading.FaultTextError.{FaultTextError};

use super::{EngineFault, Outcome, read_whole, write_whole};
use crate::tally::Tally;
use mvt_fault::FaultTextError;
use std::alloc::Global;
use std::io::{Read, Write};

/// What an engine does with a tile and a claim about it.
pub trait ClaimTask {
    // this outcome and this line answer the tile and the claim
    ghost IsAnswer: { Self → List ℕ → List ℕ → Outcome → List ℕ → Type 0 };
    // the claim is wrong in itself, for this reason
    ghost IsRefused: { Self → List ℕ → FaultTextError → Type 0 };

    /// An answer to the tile and the claim, and its line with the LF.
    fn answer(
        &self,
        alloc: Global,
        tile: &[u8],
        claim: &[u8],
    ) -> Result<(Outcome, String), FaultTextError>
        ensures answer { IfOk result (λ r.
            IsAnswer self.now tile.now claim.now r.0 (string_bytes r.1)) }
        ensures refused { IfErr result (λ fault. fault ≢ FaultTextError.Memory
            → IsRefused self.now claim.now fault) };
}

/// Reads the whole tile and then the whole claim, and writes the line that answers them. `Read` and
/// `Write` come only where a device failed or the devices were interrupted too often, and
/// `TooLarge` only where an input is too large, as the counts show; `NotJson`, `NotAFault` and
/// `FaultRange` come only where the claim is wrong in itself. The only other error is `Memory`.
pub fn run_on_claim<T: ClaimTask, R: Read, Q: Read, W: Write>(
    alloc: Global,
    task: &T,
    tile: &mut Tally<R>,
    claim: &mut Tally<Q>,
    writer: &mut Tally<W>,
) -> Result<Outcome, EngineFault>
    ensures { IsRunOnClaim (T.IsAnswer task.now) (T.IsRefused task.now)
        R.remaining Q.remaining W.contents tile.old tile.new claim.old claim.new writer.old
        writer.new result }
{
    tile.reset();
    claim.reset();
    writer.reset();
    let input = read_whole(alloc, tile, 0)?;
    let claimed = read_whole(alloc, claim, tile.interrupted())?;
    let (outcome, line) = answer_of(alloc, task, &input, &claimed)?;
    let others = tile.interrupted() + claim.interrupted();
    write_whole(writer, line.as_bytes(), others)?;
    Ok(outcome)
}

/// The task's answer, or the fault of an engine that has none.
fn answer_of<T: ClaimTask>(
    alloc: Global,
    task: &T,
    tile: &[u8],
    claim: &[u8],
) -> Result<(Outcome, String), EngineFault>
    ensures answer { IfOk result (λ r.
        T.IsAnswer task.now tile.now claim.now r.0 (string_bytes r.1)) }

    ensures not_json { result ≡ Err EngineFault.NotJson
        → T.IsRefused task.now claim.now FaultTextError.Json }
    ensures not_a_fault { result ≡ Err EngineFault.NotAFault
        → T.IsRefused task.now claim.now FaultTextError.Shape }
    ensures fault_range { result ≡ Err EngineFault.FaultRange
        → T.IsRefused task.now claim.now FaultTextError.Range }
    // No device is called.
    ensures no_read { result ≢ Err EngineFault.Read }
    ensures no_too_large { result ≢ Err EngineFault.TooLarge }
    ensures no_write { result ≢ Err EngineFault.Write }
{
    match task.answer(alloc, tile, claim) {
        Ok(answer) => Ok(answer),
        Err(FaultTextError::Json) => Err(EngineFault::NotJson),
        Err(FaultTextError::Shape) => Err(EngineFault::NotAFault),
        Err(FaultTextError::Range) => Err(EngineFault::FaultRange),
        Err(FaultTextError::Memory) => Err(EngineFault::Memory),
    }
}
