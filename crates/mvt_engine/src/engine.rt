//! What every engine does: read its whole input, and write the line, or the lines, of its answer.
ghost use Rattle.std.specs.Prelude.{◌≡◌, ◌≢◌, ℕ, ◌+◌, ◌<◌, ◌≤◌, ◌⊎◌, List, take, IsTrue, IsFalse, IfOk, IfErr, OnOk, OnErr, string_bytes};
ghost use Rattle.std.specs.Io.KnownBytes.{Keeps};
ghost use Rattle.std.specs.IoError.{error_kind};
ghost use Rattle.mvt_engine.specs.Engine.{HasFailed, IsClean, IsRunOf, ReaderShows, ReadsWhole, Writes, interruption_limit};
ghost use Rattle.mvt_engine.specs.FaultLine.{fault_line};
ghost use Rattle.mvt_engine.specs.declared.engine.Outcome.{Outcome};
ghost use Rattle.mvt_engine.specs.Tally.{counts_of, no_counts, tally_bytes};

mod claim;

use crate::tally::Tally;
pub use claim::{ClaimTask, run_on_claim};
use mvt_fault::{Fault, fault_text};
use std::alloc::{AllocError, Global};
use std::io;
use std::io::{ErrorKind, Read, Write};
use thiserror::Error;

/// How many bytes an input may have.
pub const INPUT_LIMIT: usize = 67_108_864;

/// How many interruptions an engine allows, those of all its devices together.
pub const INTERRUPTION_LIMIT: u64 = 1_000;

/// The most bytes of one read.
const CHUNK_LENGTH: usize = 65_536;

/// What the line of an engine says.
#[derive(Clone, Copy, Debug, PartialEq, Eq)]
pub enum Outcome {
    /// `fields`: the outermost fields. `dump`: what the tile holds. `check`: that the tile is
    /// valid. `mend`: a valid tile. `confirm`: that the fault is true of the tile.
    Yes,
    /// `fields`, `dump` and `check`: a fault of the tile. `mend`: one for which it is refused.
    /// `confirm`: that the fault isn't true of the tile.
    No,
}

/// Why an engine gave no answer. The text is the line that the program writes.
#[derive(Clone, Copy, Debug, PartialEq, Eq, Error)]
pub enum EngineFault {
    /// A read failed, or the devices were interrupted more than 1,000 times together.
    #[error("mvtgate: cannot read the input")]
    Read,
    /// The input has more than 67,108,864 bytes.
    #[error("mvtgate: the input is larger than 67108864 bytes")]
    TooLarge,
    /// A write or a flush failed, or the devices were interrupted more than 1,000 times together.
    #[error("mvtgate: cannot write the output")]
    Write,
    /// The second input is no JSON text.
    #[error("mvtgate: the fault file is not JSON")]
    NotJson,
    /// The second input is JSON, and has another shape than a fault.
    #[error("mvtgate: the fault file holds no fault")]
    NotAFault,
    /// The second input has the shape of a fault, with a number out of range.
    #[error("mvtgate: a number of the fault is out of range")]
    FaultRange,
    /// Memory was refused.
    #[error("mvtgate: out of memory")]
    Memory,
}

/// What an engine does with its input.
pub trait Task {
    // this outcome and this line answer the input
    ghost IsAnswer: { Self → List ℕ → Outcome → List ℕ → Type 0 };

    /// An answer to the input, and its line with the LF. A task with several lines gives all in one
    /// text.
    fn answer(&self, alloc: Global, input: &[u8]) -> Result<(Outcome, String), AllocError>
        ensures { IfOk result (λ r. IsAnswer self.now input.now r.0 (string_bytes r.1)) };
}

/// Reads the whole input and writes the line that answers it. `Read` and `Write` come only where a
/// device failed or the devices were interrupted too often, and `TooLarge` only where the input is
/// too large, as the counts show. The only other error is `Memory`.
pub fn run<T: Task, R: Read, W: Write>(
    alloc: Global,
    task: &T,
    reader: &mut Tally<R>,
    writer: &mut Tally<W>,
) -> Result<Outcome, EngineFault>
    ensures { IsRunOf (T.IsAnswer task.now)
        R.remaining W.contents reader.old reader.new writer.old writer.new result }
{
    reader.reset();
    writer.reset();
    let input = read_whole(alloc, reader, 0)?;
    let Ok((outcome, line)) = task.answer(alloc, &input) else {
        return Err(EngineFault::Memory);
    };
    write_whole(writer, line.as_bytes(), reader.interrupted())?;
    Ok(outcome)
}

/// The line of a fault, with its LF.
pub fn fault_line(alloc: Global, fault: &Fault) -> Result<String, AllocError>
    ensures { IfOk result (λ line. string_bytes line ≡ fault_line fault.now) }
{
    let mut line = fault_text(alloc, fault)?;
    line.push_str("\n")?;
    Ok(line)
}

/// Reads all that the reader gives, of at most 67,108,864 bytes. `others` is how often the engine's
/// other devices were interrupted. The errors are `Read`, `TooLarge` and `Memory`.
pub fn read_whole<R: Read>(
    alloc: Global,
    reader: &mut Tally<R>,
    others: u64,
) -> Result<Vec<u8>, EngineFault>
    requires fresh { counts_of reader.old ≡ no_counts }
    requires patient { others ≤ interruption_limit }

    ensures whole { IfOk result (λ input.
        ReadsWhole R.remaining reader.old reader.new input.items) }
    ensures clean { OnOk result (IsClean reader.new others) }

    ensures reading { ReaderShows R.remaining reader.old reader.new others result }
    ensures no_write { result ≢ Err EngineFault.Write }
{
    let mut input = Vec::new(alloc);
    let mut chunk = [0u8; CHUNK_LENGTH];
    'chunks: loop {
        match reader.read(&mut chunk) {
            Ok(0) => return Ok(input),
            Ok(n) => {
                if n > INPUT_LIMIT - input.len() {
                    return Err(EngineFault::TooLarge);
                }
                if input.extend_from_slice(&chunk[..n]).is_err() {
                    return Err(EngineFault::Memory);
                }
            }
            Err(error) => {
                if !may_try_again(&error, reader.interrupted(), others) {
                    return Err(EngineFault::Read);
                }
            }
        }
    }
}

/// Writes the whole line and flushes. `others` is how often the engine's other devices were
/// interrupted. The only error is `Write`.
pub fn write_whole<W: Write>(
    writer: &mut Tally<W>,
    line: &[u8],
    others: u64,
) -> Result<(), EngineFault>
    requires fresh { counts_of writer.old ≡ no_counts }
    requires patient { others ≤ interruption_limit }

    ensures whole { OnOk result (Writes W.contents writer.old writer.new line.now) }
    ensures clean { OnOk result (IsClean writer.new others) }

    ensures write { IfErr result (λ e. (e ≡ EngineFault.Write) × HasFailed writer.new others) }
    ensures prefix { OnErr result ((k : ℕ)
        × Writes W.contents writer.old writer.new (take k line.now)) }
{
    write_bytes(writer, line, others)?;
    flush_all(writer, others)
}

fn write_bytes<W: Write>(writer: &mut Tally<W>, line: &[u8], others: u64) -> Result<(), EngineFault>
    requires fresh { counts_of writer.old ≡ no_counts }
    requires patient { others ≤ interruption_limit }

    ensures whole { OnOk result (Writes W.contents writer.old writer.new line.now) }
    ensures clean { OnOk result (IsClean writer.new others) }

    ensures write { IfErr result (λ e. (e ≡ EngineFault.Write) × HasFailed writer.new others) }
    ensures prefix { OnErr result ((k : ℕ)
        × Writes W.contents writer.old writer.new (take k line.now)) }
{
    let mut written = 0;
    'bytes: while written < line.len() {
        match writer.write(&line[written..]) {
            Ok(0) => return Err(EngineFault::Write),
            Ok(n) => written += n,
            Err(error) => {
                if !may_try_again(&error, writer.interrupted(), others) {
                    return Err(EngineFault::Write);
                }
            }
        }
    }
    Ok(())
}

fn flush_all<W: Write>(writer: &mut Tally<W>, others: u64) -> Result<(), EngineFault>
    requires { IsClean writer.old others }

    ensures kept { Keeps (tally_bytes W.contents writer.old) (tally_bytes W.contents writer.new) }
    ensures bytes { (counts_of writer.new).bytes ≡ (counts_of writer.old).bytes }
    ensures clean { OnOk result (IsClean writer.new others) }
    ensures write { IfErr result (λ e. (e ≡ EngineFault.Write) × HasFailed writer.new others) }
{
    'tries: loop {
        match writer.flush() {
            Ok(()) => return Ok(()),
            Err(error) => {
                if !may_try_again(&error, writer.interrupted(), others) {
                    return Err(EngineFault::Write);
                }
            }
        }
    }
}

/// Whether a call that ended in this error is made again: an interrupted call is, unless the run
/// was interrupted more often than allowed. `interruptions` counts those of the device, this one
/// among them, and `others` those of the engine's other devices.
fn may_try_again(error: &io::Error, interruptions: u64, others: u64) -> bool
    requires { others ≤ interruption_limit }
    ensures yes { IsTrue result → (error_kind error.now ≡ ErrorKind.Interrupted)
        × (interruptions + others ≤ interruption_limit) }
    ensures no { IsFalse result → (error_kind error.now ≢ ErrorKind.Interrupted)
        ⊎ ((error_kind error.now ≡ ErrorKind.Interrupted)
        × (interruption_limit < interruptions + others)) }
{
    error.kind() == ErrorKind::Interrupted && interruptions <= INTERRUPTION_LIMIT - others
}
