//! The engine of `mend`: it reads a tile, and writes a valid one and what was changed.
ghost use Rattle.std.specs.Prelude.{◌≡◌, ◌≢◌, ◌+◌, ◌≤◌, IfOk, IfErr, OnErr, OnOk, string_bytes};
ghost use Rattle.mvt_engine.specs.Engine.{IsClean, ReaderShows, interruption_limit};
ghost use Rattle.mvt_engine.specs.Tally.{IsUntouched, counts_of, no_counts};
ghost use Rattle.mvt_mender.specs.Report.{report_line};
ghost use Rattle.mvt_mender.specs.Stream.{AnswersTwice, BreaksOffTwice, HasFailedOnce, HasLineFailed, IsLineClean, IsMendAnswerBy, LineBreaksOff, LineGoes};

use crate::mending::{FeatureChange, Mending, mend_with};
use crate::report::report_text;
use mvt_fault::Profile;
use mvt_gate::{EngineFault, Outcome, Tally, fault_line, read_whole, write_whole};
use std::alloc::{AllocError, Global};
use std::io::{Read, Write};

/// Reads a whole tile, of at most 67,108,864 bytes, mends it by `mend_with`, and writes the tile that
/// is valid to one device, and then to another the line that tells what was changed, with its LF: the
/// text of `report_text`. A tile that was valid is written as it was. Where the tile is refused, no
/// bytes are written, and the line of the fault, its JSON text with an LF, goes to a third device.
///
/// Nothing is written before the answer is known. `Read` and `Write` come only where a device failed
/// or the devices were interrupted too often, and `TooLarge` only where the input is too large, as the
/// counts show. The only other error is `Memory`.
pub fn mend_stream<R: Read, W: Write, V: Write, E: Write>(
    alloc: Global,
    profile: Profile,
    drop_unmended: bool,
    reader: &mut Tally<R>,
    writer: &mut Tally<W>,
    report: &mut Tally<V>,
    errors: &mut Tally<E>,
) -> Result<Outcome, EngineFault>
    // Bytes and line are those of all that the reader gave, and they went out once and whole.
    ensures answers { IfOk result (AnswersTwice (IsMendAnswerBy profile drop_unmended)
        R.remaining W.contents V.contents E.contents reader.old reader.new writer.old writer.new
        report.old report.new errors.old errors.new) }
    ensures tile_clean { OnOk result (IsClean writer.new (counts_of reader.new).interrupted) }
    ensures clean { IfOk result (λ outcome. IsLineClean outcome report.new errors.new
        ((counts_of reader.new).interrupted + (counts_of writer.new).interrupted)) }

    ensures reading { ReaderShows R.remaining reader.old reader.new 0 result }
    ensures write { result ≡ Err EngineFault.Write
        → HasFailedOnce reader.new writer.new report.new errors.new }

    // Before the answer is known, nothing goes out; after a failed write, a first part of it.
    ensures untouched { IfErr result (λ fault. fault ≢ EngineFault.Write
        → IsUntouched writer.old writer.new × IsUntouched report.old report.new
        × IsUntouched errors.old errors.new) }
    ensures prefix { result ≡ Err EngineFault.Write
        → BreaksOffTwice (IsMendAnswerBy profile drop_unmended)
        R.remaining W.contents V.contents E.contents reader.old reader.new writer.old writer.new
        report.old report.new errors.old errors.new }
{
    reader.reset();
    writer.reset();
    report.reset();
    errors.reset();
    let input = read_whole(alloc, reader, 0)?;
    let Ok(answer) = answer_of(alloc, profile, drop_unmended, input) else {
        return Err(EngineFault::Memory);
    };
    write_whole(writer, &answer.out, reader.interrupted())?;
    let others = reader.interrupted() + writer.interrupted();
    write_line(
        answer.outcome,
        report,
        errors,
        answer.line.as_bytes(),
        others,
    )?;
    Ok(answer.outcome)
}

/// Writes the line to the device that the outcome asks for: of a tile that is valid now to the first,
/// and of one that is refused to the second. `others` is how often the other devices were interrupted.
/// The only error is `Write`.
fn write_line<V: Write, E: Write>(
    outcome: Outcome,
    report: &mut Tally<V>,
    errors: &mut Tally<E>,
    line: &[u8],
    others: u64,
) -> Result<(), EngineFault>
    requires fresh_report { counts_of report.old ≡ no_counts }
    requires fresh_errors { counts_of errors.old ≡ no_counts }
    requires patient { others ≤ interruption_limit }

    ensures whole { OnOk result (LineGoes V.contents E.contents outcome report.old report.new
        errors.old errors.new line.now) }
    ensures clean { OnOk result (IsLineClean outcome report.new errors.new others) }

    ensures write { IfErr result (λ e. (e ≡ EngineFault.Write)
        × HasLineFailed outcome report.new errors.new others) }
    ensures prefix { OnErr result (LineBreaksOff V.contents E.contents outcome report.old report.new
        errors.old errors.new line.now) }
{
    match outcome {
        Outcome::Yes => write_whole(report, line, others),
        Outcome::No => write_whole(errors, line, others),
    }
}

/// What is written of an answer.
#[derive(Drop)]
struct Answer {
    outcome: Outcome,
    /// The bytes of the tile that is valid, or none.
    out: Vec<u8>,
    /// The line that tells what was changed, or that of a fault, with its LF.
    line: String,
}

/// What is written of the answer to a tile.
fn answer_of(
    alloc: Global,
    profile: Profile,
    drop_unmended: bool,
    input: Vec<u8>,
) -> Result<Answer, AllocError>
    ensures { IfOk result (λ answer. IsMendAnswerBy profile drop_unmended input.items
        answer.outcome answer.out.items (string_bytes answer.line)) }
{
    let (outcome, out, line) = match mend_with(alloc, profile, drop_unmended, &input)? {
        Mending::Valid => (Outcome::Yes, input, report_line(alloc, &[])?),
        Mending::Mended(mended) => {
            (
                Outcome::Yes,
                mended.bytes,
                report_line(alloc, &mended.changes)?,
            )
        }
        Mending::Refused(fault) => (Outcome::No, Vec::new(alloc), fault_line(alloc, &fault)?),
    };
    Ok(Answer { outcome, out, line })
}

/// The line that tells what was changed, with its LF.
fn report_line(alloc: Global, changes: &[FeatureChange]) -> Result<String, AllocError>
    ensures { IfOk result (λ line. string_bytes line ≡ report_line changes.now) }
{
    let mut line = report_text(alloc, changes)?;
    line.push_str("\n")?;
    Ok(line)
}
