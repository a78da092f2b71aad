//! The figure that the numbers of a geometry draw, with its positions in lists.
ghost use Rattle.std.specs.Prelude.{◌≡◌, List, [], map, IfErr, IfOk};
ghost use Rattle.mvt_plane.specs.Position.{Position, origin};
ghost use Rattle.mvt_tile.specs.View.{kind_number};
ghost use Rattle.mvt_plane.specs.Commands.Course.{IsRunAhead, ArePathsAhead};
ghost use Rattle.mvt_draw.specs.Geometry.{IsDrawn, IsDrawFault};
ghost use Rattle.mvt_plane.specs.FeatureGeometry.{HasFigure};

use crate::checking::command_fault;
use crate::commands::Cursor;
use crate::figure::Figure;
use crate::reading::{read_path, read_points};
use mvt_fault::CommandCode;
use mvt_plane::Point;
use mvt_tile::Kind;
use mvt_wire::{ListedNumbers, NumberSource};
use std::alloc::{AllocError, AllocFailed, Global};

/// Why a geometry wasn't drawn.
#[derive(Clone, Copy, Debug, PartialEq, Eq)]
pub enum DrawFault {
    /// The numbers draw no figure of the kind.
    Command {
        /// The cause.
        code: CommandCode,
        /// The place in the list of numbers, counted from 0; the list's length where more is due.
        index: usize,
    },
    /// Memory was refused.
    Memory,
}

impl From<(CommandCode, usize)> for DrawFault {
    ghost use Rattle.mvt_draw.specs.declared.drawing.DrawFault.{DrawFault};

    ghost from_gives = { λ stop fault. fault ≡ DrawFault.Command stop.0 stop.1 };

    fn from((code, index): (CommandCode, usize)) -> DrawFault {
        DrawFault::Command { code, index }
    }
}

impl From<AllocError> for DrawFault {
    ghost use Rattle.mvt_draw.specs.declared.drawing.DrawFault.{DrawFault};

    ghost from_gives = { λ _ fault. fault ≡ DrawFault.Memory };

    fn from(_refused: AllocError) -> DrawFault {
        DrawFault::Memory
    }
}

impl<T: Drop> From<AllocFailed<T>> for DrawFault {
    ghost use Rattle.mvt_draw.specs.declared.drawing.DrawFault.{DrawFault};

    ghost from_gives = { λ _ fault. fault ≡ DrawFault.Memory };

    fn from(_refused: AllocFailed<T>) -> DrawFault {
        DrawFault::Memory
    }
}

/// The figure that the numbers of a geometry draw, by its kind (Mapbox Vector Tile Specification
/// 2.1, section 4.3). Nothing is reserved by a count that was read, and nothing is taken for
/// numbers that draw none.
///
/// Errors: `Command` with what keeps the numbers from drawing a figure; `Memory` where a figure
/// found no memory.
pub fn draw(alloc: Global, kind: Kind, numbers: &[u32]) -> Result<Figure, DrawFault>
    ensures figure { IfOk result (IsDrawn (kind_number kind) numbers.now) }
    ensures fault { IfErr result (IsDrawFault (kind_number kind) numbers.now) }
{
    if let Some((code, index)) = command_fault(kind, ListedNumbers::new(numbers)) {
        return Err(DrawFault::Command { code, index });
    }
    match draw_figure(alloc, kind, numbers) {
        Ok(figure) => Ok(figure),
        // The numbers draw a figure: nothing but memory was refused.
        Err(_refused) => Err(DrawFault::Memory),
    }
}

/// The figure of numbers that are known to draw one.
fn draw_figure(alloc: Global, kind: Kind, numbers: &[u32]) -> Result<Figure, DrawFault>
    requires { HasFigure (kind_number kind) numbers.now }
    ensures { IfOk result (IsDrawn (kind_number kind) numbers.now) }
{
    match kind {
        Kind::Unknown => Ok(Figure::Unknown),
        Kind::Point => Ok(Figure::Points(draw_points(alloc, numbers)?)),
        Kind::LineString => Ok(Figure::Lines(draw_paths(alloc, numbers, false)?)),
        Kind::Polygon => Ok(Figure::Rings(draw_paths(alloc, numbers, true)?)),
    }
}

/// Points, to which one MoveTo leads (section 4.3.4.2).
fn draw_points(alloc: Global, numbers: &[u32]) -> Result<Vec<Point>, DrawFault>
    ensures { IfOk result (λ points. (positions : List Position)
        → IsRunAhead (record { here = origin; left = numbers.now }) positions []
        → points.items ≡ positions) }
{
    let mut points = Vec::new(alloc);
    read_points(&mut points, &mut ListedNumbers::new(numbers))?;
    Ok(points)
}

/// Lines (section 4.3.4.3), or rings, each of which is closed (section 4.3.4.4).
fn draw_paths(alloc: Global, numbers: &[u32], closed: bool) -> Result<Vec<Vec<Point>>, DrawFault>
    ensures { IfOk result (λ drawn. (parts : List (List Position))
        → ArePathsAhead (record { here = origin; left = numbers.now }) closed parts
        → map (λ part. part.items) drawn.items ≡ parts) }
{
    let mut source = ListedNumbers::new(numbers);
    let mut parts = Vec::new(alloc);
    let mut cursor = Cursor::ORIGIN;
    'paths: while let Some(first) = source.next_number() {
        let mut points = Vec::new(alloc);
        read_path(&mut points, first, &mut source, &mut cursor, closed)?;
        parts.push(points)?;
    }
    Ok(parts)
}
