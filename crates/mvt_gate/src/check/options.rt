//! The engine of `check` with all its options.
ghost use Rattle.std.specs.Prelude.{◌≡◌, IfOk, string_bytes};
ghost use Rattle.mvt_gate.specs.CheckOptions.{IsCheckAnswerOf, IsFaultsAnswer, IsListAnswer};
ghost use Rattle.mvt_engine.specs.Engine.{IsRunOf};
ghost use Rattle.mvt_engine.specs.FaultLine.{fault_lines};

use super::{ok_line, verdict_answer};
use crate::advice::add_advice;
use crate::faults::faults_for;
use crate::quick::Search;
use mvt_engine::{EngineFault, Outcome, Tally, Task, fault_line};
use mvt_fault::{Fault, Profile};
use std::alloc::{AllocError, Global};
use std::io::{Read, Write};

/// What `check` is asked for.
#[derive(Clone, Copy, Debug, PartialEq, Eq)]
pub struct CheckOptions {
    /// The rules.
    pub profile: Profile,
    /// Which faults are searched for.
    pub search: Search,
    /// Whether there is a line for each fault of the list, and not for the first one alone.
    pub all: bool,
    /// Whether the line of the advice comes after them.
    pub advice: bool,
}

/// Reads a whole tile, of at most 67,108,864 bytes, and writes `{"ok":true}` for a valid tile, or the
/// JSON text of its fault, or of all its faults; and after them, where that is asked for and the
/// bytes are a tile, the text of the advice. Each line has one LF. The faults are those of
/// `judge_with` or `judge_quickly`, and of `faults_with` or `faults_quickly`. The outcome is that of
/// the verdict. `Read` and `Write` come only where a device failed or the devices were interrupted
/// too often, and `TooLarge` only where the input is too large, as the counts show. The only other
/// error is `Memory`.
pub fn check_stream_by<R: Read, W: Write>(
    alloc: Global,
    options: CheckOptions,
    reader: &mut Tally<R>,
    writer: &mut Tally<W>,
) -> Result<Outcome, EngineFault>
    ensures { IsRunOf (IsCheckAnswerOf options)
        R.remaining W.contents reader.old reader.new writer.old writer.new result }
{
    mvt_engine::run(alloc, &CheckBy { options }, reader, writer)
}

/// To check a tile by options.
#[derive(Clone, Copy)]
struct CheckBy {
    options: CheckOptions,
}

impl Task for CheckBy {
    ghost IsAnswer = { λ task. IsCheckAnswerOf task.options };

    fn answer(&self, alloc: Global, input: &[u8]) -> Result<(Outcome, String), AllocError> {
        let (outcome, lines) = faults_answer(alloc, self.options, input)?;
        if self.options.advice {
            Ok((outcome, add_advice(alloc, input, lines)?))
        } else {
            Ok((outcome, lines))
        }
    }
}

/// The outcome and the lines of the faults.
fn faults_answer(
    alloc: Global,
    options: CheckOptions,
    input: &[u8],
) -> Result<(Outcome, String), AllocError>
    ensures { IfOk result (λ r. IsFaultsAnswer options.all options.search options.profile
        input.now r.0 (string_bytes r.1)) }
{
    if options.all {
        list_answer(alloc, options.search, options.profile, input)
    } else {
        verdict_answer(alloc, options.search, options.profile, input)
    }
}

/// The outcome and the lines of all faults.
fn list_answer(
    alloc: Global,
    search: Search,
    profile: Profile,
    input: &[u8],
) -> Result<(Outcome, String), AllocError>
    ensures { IfOk result (λ r. IsListAnswer search profile input.now r.0 (string_bytes r.1)) }
{
    let faults = faults_for(alloc, search, profile, input)?;
    if faults.is_empty() {
        return Ok((Outcome::Yes, ok_line(alloc)?));
    }
    Ok((Outcome::No, fault_lines(alloc, &faults)?))
}

/// The lines of faults, each with its LF, one after another.
pub fn fault_lines(alloc: Global, faults: &[Fault]) -> Result<String, AllocError>
    ensures { IfOk result (λ lines. string_bytes lines ≡ fault_lines faults.now) }
{
    let mut lines = String::new(alloc);
    'faults: for fault in faults {
        lines.push_str(fault_line(alloc, fault)?.as_str())?;
    }
    Ok(lines)
}
