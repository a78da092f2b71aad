//! The engine of `check` with advice: the line of the verdict, and after it what may be a mistake
//! in the tile, though no rule forbids it.
ghost use Rattle.std.specs.Prelude.{◌≡◌, List, ◌++◌, IfOk, string_bytes};
ghost use Rattle.mvt_engine.specs.AdviceText.{advice_line};
ghost use Rattle.mvt_gate.specs.Advice.{AddsAdvice, IsAdviseAnswerBy};
ghost use Rattle.mvt_engine.specs.Engine.{IsRunOf};
ghost use Rattle.mvt_tile.specs.Advice.{IsAdvice};
ghost use Rattle.mvt_tile.specs.View.{tile_of};
ghost use Rattle.mvt_tile.specs.declared.advice.Advice.{Advice};

use crate::check::CheckTile;
use mvt_engine::{EngineFault, Outcome, Tally, Task, push_advice};
use mvt_fault::Profile;
use mvt_tile::{ReadFault, Tile, advise, read_tile};
use std::alloc::{AllocError, Global};
use std::io::{Read, Write};

/// Reads a whole tile, of at most 67,108,864 bytes, and writes the line that `check_stream_with`
/// writes. Where the bytes have no wire fault, so that they are a tile, whatever other rules it
/// breaks, a second line with one LF is after it: the text of `advice_text` for the advice on the
/// tile. The outcome is that of the verdict. `Read` and `Write` come only where a device failed or
/// the devices were interrupted too often, and `TooLarge` only where the input is too large, as the
/// counts show. The only other error is `Memory`.
pub fn advise_stream<R: Read, W: Write>(
    alloc: Global,
    profile: Profile,
    reader: &mut Tally<R>,
    writer: &mut Tally<W>,
) -> Result<Outcome, EngineFault>
    ensures { IsRunOf (IsAdviseAnswerBy profile)
        R.remaining W.contents reader.old reader.new writer.old writer.new result }
{
    mvt_engine::run(alloc, &AdviseOnTile { profile }, reader, writer)
}

/// To judge a tile by a profile, and to give advice on it.
#[derive(Clone, Copy)]
struct AdviseOnTile {
    profile: Profile,
}

impl Task for AdviseOnTile {
    ghost IsAnswer = { λ task. IsAdviseAnswerBy task.profile };

    fn answer(&self, alloc: Global, input: &[u8]) -> Result<(Outcome, String), AllocError> {
        let check = CheckTile {
            profile: self.profile,
        };
        let (outcome, line) = check.answer(alloc, input)?;
        Ok((outcome, add_advice(alloc, input, line)?))
    }
}

/// The line, or lines, of a verdict, and after them that of the advice where the input is a tile.
/// (It is read again for that, so that its record is not held while it is judged.)
pub(crate) fn add_advice(alloc: Global, input: &[u8], line: String) -> Result<String, AllocError>
    ensures { IfOk result (λ lines.
        AddsAdvice input.now (string_bytes line) (string_bytes lines)) }
{
    match read_tile(alloc, input) {
        Ok(tile) => with_advice(alloc, line, &tile),
        Err(ReadFault::Wire(_fault)) => Ok(line),
        Err(ReadFault::Memory) => Err(AllocError),
    }
}

/// A line, and the line of the advice on a tile after it.
fn with_advice(alloc: Global, line: String, tile: &Tile<'_>) -> Result<String, AllocError>
    ensures { IfOk result (λ lines. (advice : List Advice) × IsAdvice (tile_of tile.now) advice
        × (string_bytes lines ≡ string_bytes line ++ advice_line advice)) }
{
    let advice = advise(alloc, tile)?;
    let mut lines = line;
    push_advice(alloc, &mut lines, &advice)?;
    lines.push_str("\n")?;
    Ok(lines)
}
