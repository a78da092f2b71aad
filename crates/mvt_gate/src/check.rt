//! The engine of `check`: whether an input is a tile that keeps the rules, as one line of JSON.
ghost use Rattle.std.specs.Prelude.{◌≡◌, IfOk, string_bytes};
ghost use Rattle.mvt_gate.specs.Check.{IsCheckAnswer, IsCheckAnswerBy, ok_line};
ghost use Rattle.mvt_gate.specs.CheckOptions.{IsVerdictAnswer};
ghost use Rattle.mvt_engine.specs.Engine.{IsRunOf};

mod options;

use crate::quick::{Search, judge_for};
use crate::verdict::Verdict;
use mvt_engine::{EngineFault, Outcome, Tally, Task, fault_line};
use mvt_fault::Profile;
pub use options::{CheckOptions, check_stream_by, fault_lines};
use std::alloc::{AllocError, Global};
use std::io::{Read, Write};

/// Reads a whole tile, of at most 67,108,864 bytes, and writes the line of its verdict, with one
/// LF: `{"ok":true}` for a tile by the Mapbox Vector Tile Specification 2.1, section 4, whose
/// layers have version 2 and different names (section 4.1), whose tags are pairs of a key and a
/// value of their layer, no key twice in a feature (section 4.4), whose geometry draws a figure of
/// the feature's type where that is known (section 4.3), and whose rings are those of polygons of
/// which no two edges cross or touch and whose holes are inside their exterior and not inside each
/// other (section 4.3.4.4; `judge` has the full rules); or else the JSON text of its first fault.
/// `Read` and `Write` come only where a device failed or the devices were interrupted too often,
/// and `TooLarge` only where the input is too large, as the counts show. The only other error is
/// `Memory`.
pub fn check_stream<R: Read, W: Write>(
    alloc: Global,
    reader: &mut Tally<R>,
    writer: &mut Tally<W>,
) -> Result<Outcome, EngineFault>
    ensures { IsRunOf IsCheckAnswer
        R.remaining W.contents reader.old reader.new writer.old writer.new result }
{
    check_stream_with(alloc, Profile::Polygon, reader, writer)
}

/// The same by a profile: `judge_with` has the rules.
pub fn check_stream_with<R: Read, W: Write>(
    alloc: Global,
    profile: Profile,
    reader: &mut Tally<R>,
    writer: &mut Tally<W>,
) -> Result<Outcome, EngineFault>
    ensures { IsRunOf (IsCheckAnswerBy profile)
        R.remaining W.contents reader.old reader.new writer.old writer.new result }
{
    mvt_engine::run(alloc, &CheckTile { profile }, reader, writer)
}

/// To judge a tile by a profile.
#[derive(Clone, Copy)]
pub(crate) struct CheckTile {
    pub(crate) profile: Profile,
}

impl Task for CheckTile {
    ghost IsAnswer = { λ task. IsCheckAnswerBy task.profile };

    fn answer(&self, alloc: Global, input: &[u8]) -> Result<(Outcome, String), AllocError> {
        verdict_answer(alloc, Search::Least, self.profile, input)
    }
}

/// The outcome and the line of a verdict.
fn verdict_answer(
    alloc: Global,
    search: Search,
    profile: Profile,
    input: &[u8],
) -> Result<(Outcome, String), AllocError>
    ensures { IfOk result (λ r.
        IsVerdictAnswer search profile input.now r.0 (string_bytes r.1)) }
{
    match judge_for(alloc, search, profile, input)? {
        Verdict::Yes => Ok((Outcome::Yes, ok_line(alloc)?)),
        Verdict::No(fault) => Ok((Outcome::No, fault_line(alloc, &fault)?)),
    }
}

/// The line of a valid tile.
fn ok_line(alloc: Global) -> Result<String, AllocError>
    ensures { IfOk result (λ line. string_bytes line ≡ ok_line) }
{
    String::from_str(alloc, "{\"ok\":true}\n")
}
