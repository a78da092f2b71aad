//! What reads the commands of a geometry and gives its positions to a sink (Mapbox Vector Tile
//! Specification 2.1, section 4.3). Nothing is reserved by a count that was read.
ghost use Rattle.std.specs.Prelude.{◌≡◌, ◌+◌, ◌^◌, ◌<◌, ◌≤◌, [], ◌++◌, ℕ, Bool, true, false, IfErr, List, OnOk, drop};
ghost use Rattle.mvt_draw.specs.Calls.Cursor.{position_of, course_of};
ghost use Rattle.mvt_draw.specs.declared.drawing.DrawFault.{DrawFault};
ghost use Rattle.mvt_draw.specs.Calls.Geometry.{IsFaultAhead};
ghost use Rattle.mvt_draw.specs.Calls.Given.{IsGivenAt};
ghost use Rattle.mvt_plane.specs.Calls.Course.{AreStepsAhead};
ghost use Rattle.mvt_plane.specs.Commands.Course.{IsPathAhead, IsRunAhead, ending_of};
ghost use Rattle.mvt_plane.specs.Commands.Drawing.{path_command};
ghost use Rattle.mvt_plane.specs.Commands.Figure.{GeometryType, point};
ghost use Rattle.mvt_plane.specs.Commands.Figure as plane;
ghost use Rattle.mvt_plane.specs.Position.{Position, origin};
ghost use Rattle.mvt_plane.specs.Commands.Reading.{IsWhole, path_type, with_left};
ghost use Rattle.mvt_plane.specs.Calls.Reading.{StandsAt};

use crate::commands::{Cursor, command, path_start, step};
use crate::drawing::DrawFault;
use crate::sink::PositionSink;
use mvt_fault::CommandCode;
use mvt_plane::{CLOSE_PATH, GREATEST_COUNT, MOVE_TO};
use mvt_wire::NumberSource;

/// Reads the numbers as points, to which one MoveTo leads (section 4.3.4.2).
pub(crate) fn read_points<S: PositionSink, N: NumberSource + Drop>(
    sink: &mut S,
    source: &mut N,
) -> Result<(), DrawFault>
    requires few { N.most source.old < 2 ^ 64 }
    ensures whole { OnOk result ((numbers : List ℕ) → N.Leaves source.old numbers
        → IsWhole point numbers) }
    ensures drawn { OnOk result (S.Keeps → (numbers : List ℕ) → N.Leaves source.old numbers
        → (positions : List Position)
        → IsRunAhead (record { here = origin; left = numbers }) positions []
        → S.kept sink.new ≡ S.kept sink.old ++ positions) }
    ensures refused { IfErr result (λ stop. stop ≡ DrawFault.Memory → S.Keeps) }
    ensures fault { IfErr result (λ stop. (numbers : List ℕ) → N.Leaves source.old numbers
        → IsFaultAhead point numbers stop) }
{
    let count = command(source.next_number(), 0, MOVE_TO, 1, GREATEST_COUNT)?;
    let mut cursor = Cursor { x: 0, y: 0, at: 1 };
    read_steps(sink, source, &mut cursor, count, false)?;
    match source.next_number() {
        None => Ok(()),
        Some(_further) => Err(DrawFault::Command {
            code: CommandCode::OtherCommand,
            index: cursor.at,
        }),
    }
}

/// Reads a line, or a ring, which is closed. Its first number, at the cursor, was read before.
#[inline(always)]
pub(crate) fn read_path<S: PositionSink, N: NumberSource + Drop>(
    sink: &mut S,
    first: u32,
    source: &mut N,
    cursor: &mut Cursor,
    closed: bool,
) -> Result<(), DrawFault>
    requires few { cursor.old.at + 1 + N.most source.old < 2 ^ 64 }
    ensures forward { OnOk result (cursor.old.at < cursor.new.at) }
    ensures fewer { OnOk result (cursor.new.at + N.most source.new
        ≤ cursor.old.at + 1 + N.most source.old) }
    ensures left { OnOk result ((numbers : List ℕ)
        → IsGivenAt (N.Leaves source.old) numbers cursor.old.at first
        → N.Leaves source.new (drop cursor.new.at numbers)) }
    ensures goes { OnOk result ((numbers : List ℕ)
        → IsGivenAt (N.Leaves source.old) numbers cursor.old.at first
        → (drawn : Bool) → StandsAt (path_type closed) numbers cursor.old.at
        (path_command drawn (position_of cursor.old))
        → StandsAt (path_type closed) numbers cursor.new.at
        (path_command true (position_of cursor.new))) }
    ensures drawn { OnOk result (S.Keeps → (numbers : List ℕ)
        → IsGivenAt (N.Leaves source.old) numbers cursor.old.at first
        → (part : List Position) (rest : List ℕ)
        → IsPathAhead (course_of numbers cursor.old) part (ending_of closed ++ rest)
        → (S.kept sink.new ≡ S.kept sink.old ++ part)
        × (course_of numbers cursor.new
        ≡ record { here = plane.cursor (position_of cursor.old) part; left = rest })) }
    ensures refused { IfErr result (λ stop. stop ≡ DrawFault.Memory → S.Keeps) }
    ensures fault { IfErr result (λ stop. (numbers : List ℕ)
        → IsGivenAt (N.Leaves source.old) numbers cursor.old.at first
        → (drawn : Bool) → StandsAt (path_type closed) numbers cursor.old.at
        (path_command drawn (position_of cursor.old))
        → IsFaultAhead (path_type closed) numbers stop) }
{
    let count = path_start(first, source, cursor, closed)?;
    sink.take(*cursor)?;
    read_steps(sink, source, cursor, count, true)?;
    if !closed {
        return Ok(());
    }
    command(source.next_number(), cursor.at, CLOSE_PATH, 1, 1)?;
    cursor.at += 1;
    Ok(())
}

/// Reads so many steps; those of a LineTo may not stay.
#[inline(always)]
fn read_steps<S: PositionSink, N: NumberSource + Drop>(
    sink: &mut S,
    source: &mut N,
    cursor: &mut Cursor,
    count: u32,
    line: bool,
) -> Result<(), DrawFault>
    requires few { cursor.old.at + N.most source.old < 2 ^ 64 }
    ensures forward { OnOk result (cursor.old.at ≤ cursor.new.at) }
    ensures fewer { OnOk result (cursor.new.at + N.most source.new
        ≤ cursor.old.at + N.most source.old) }
    ensures left { OnOk result ((numbers : List ℕ)
        → N.Leaves source.old (drop cursor.old.at numbers)
        → N.Leaves source.new (drop cursor.new.at numbers)) }
    ensures goes { OnOk result ((numbers : List ℕ)
        → N.Leaves source.old (drop cursor.old.at numbers) → (geometry_type : GeometryType)
        → StandsAt geometry_type numbers cursor.old.at
        (with_left geometry_type line count (position_of cursor.old))
        → StandsAt geometry_type numbers cursor.new.at
        (with_left geometry_type line 0 (position_of cursor.new))) }
    ensures drawn { OnOk result (S.Keeps → (numbers : List ℕ)
        → N.Leaves source.old (drop cursor.old.at numbers)
        → (positions : List Position) (rest : List ℕ)
        → AreStepsAhead (course_of numbers cursor.old) count positions rest
        → (S.kept sink.new ≡ S.kept sink.old ++ positions)
        × (course_of numbers cursor.new
        ≡ record { here = plane.cursor (position_of cursor.old) positions; left = rest })) }
    ensures refused { IfErr result (λ stop. stop ≡ DrawFault.Memory → S.Keeps) }
    ensures fault { IfErr result (λ stop. (numbers : List ℕ)
        → N.Leaves source.old (drop cursor.old.at numbers) → (geometry_type : GeometryType)
        → StandsAt geometry_type numbers cursor.old.at
        (with_left geometry_type line count (position_of cursor.old))
        → IsFaultAhead geometry_type numbers stop) }
{
    let mut left = count;
    'steps: while left > 0 {
        step(source, cursor, line)?;
        sink.take(*cursor)?;
        left -= 1;
    }
    Ok(())
}
