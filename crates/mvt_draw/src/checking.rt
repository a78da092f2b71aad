//! The command fault of a geometry, by passes over its numbers that keep nothing.
ghost use Rattle.std.specs.Prelude.{◌≡◌, ◌≢◌, ◌^◌, ◌<◌, ℕ, List, IfErr, IfNone, IfSome, OnOk};
ghost use Rattle.mvt_plane.specs.Commands.Reading.{IsWhole, path_type};
ghost use Rattle.mvt_draw.specs.declared.drawing.DrawFault.{DrawFault};
ghost use Rattle.mvt_draw.specs.Geometry.{IsCommandFault};
ghost use Rattle.mvt_draw.specs.Calls.Geometry.{IsFaultAhead};
ghost use Rattle.mvt_plane.specs.FeatureGeometry.{HasFigure, type_number};
ghost use Rattle.mvt_fault.specs.declared.command.CommandCode.{CommandCode};
ghost use Rattle.mvt_plane.specs.Commands.Figure.{GeometryType};
ghost use Rattle.mvt_tile.specs.View.{kind_number};

use crate::commands::Cursor;
use crate::drawing::DrawFault;
use crate::reading::{read_path, read_points};
use crate::sink::Nothing;
use mvt_fault::CommandCode;
use mvt_tile::Kind;
use mvt_wire::NumberSource;

/// What keeps the numbers of a geometry from drawing a figure of the kind: the cause and the place
/// among them, counted from 0, or how many they are where more is due (Mapbox Vector Tile
/// Specification 2.1, section 4.3). None where they draw one, and for a geometry of unknown kind. It
/// takes no memory.
pub fn command_fault<N: NumberSource + Drop>(kind: Kind, numbers: N) -> Option<(CommandCode, usize)>
    requires few { N.most numbers < 2 ^ 64 }
    ensures figure { IfNone result ((given : List ℕ) → N.Leaves numbers given
        → HasFigure (kind_number kind) given) }
    ensures none { IfNone result ((given : List ℕ) → N.Leaves numbers given
        → (code : CommandCode) (index : ℕ) → ¬ IsCommandFault (kind_number kind) given code index) }
    ensures fault { IfSome result (λ fault. (given : List ℕ) → N.Leaves numbers given
        → IsCommandFault (kind_number kind) given fault.0 fault.1) }
{
    match read(kind, numbers) {
        Ok(()) => None,
        Err(DrawFault::Command { code, index }) => Some((code, index)),
        // Nothing is kept that memory could be refused to.
        Err(DrawFault::Memory) => unreachable!(),
    }
}

/// Reads the numbers of a geometry by its kind, which is known or not.
fn read<N: NumberSource + Drop>(kind: Kind, mut source: N) -> Result<(), DrawFault>
    requires few { N.most source < 2 ^ 64 }
    ensures figure { OnOk result ((given : List ℕ) → N.Leaves source given
        → HasFigure (kind_number kind) given) }
    ensures no_memory { IfErr result (λ fault. fault ≢ DrawFault.Memory) }
    ensures fault { IfErr result (λ fault. (geometry_type : GeometryType)
        × (kind_number kind ≡ type_number geometry_type)
        × ((given : List ℕ) → N.Leaves source given → IsFaultAhead geometry_type given fault)) }
{
    match kind {
        Kind::Unknown => Ok(()),
        Kind::Point => read_points(&mut Nothing, &mut source),
        Kind::LineString => read_paths(source, false),
        Kind::Polygon => read_paths(source, true),
    }
}

/// Reads the numbers as lines, or as rings, which are closed (sections 4.3.4.3 and 4.3.4.4).
fn read_paths<N: NumberSource + Drop>(mut source: N, closed: bool) -> Result<(), DrawFault>
    requires few { N.most source < 2 ^ 64 }
    ensures whole { OnOk result ((given : List ℕ) → N.Leaves source given
        → IsWhole (path_type closed) given) }
    ensures no_memory { IfErr result (λ stop. stop ≢ DrawFault.Memory) }
    ensures fault { IfErr result (λ stop. (given : List ℕ) → N.Leaves source given
        → IsFaultAhead (path_type closed) given stop) }
{
    read_all_paths(&mut source, closed)
}

/// The same from a source that stays.
#[inline(always)]
fn read_all_paths<N: NumberSource + Drop>(source: &mut N, closed: bool) -> Result<(), DrawFault>
    requires few { N.most source.old < 2 ^ 64 }
    ensures whole { OnOk result ((given : List ℕ) → N.Leaves source.old given
        → IsWhole (path_type closed) given) }
    ensures no_memory { IfErr result (λ stop. stop ≢ DrawFault.Memory) }
    ensures fault { IfErr result (λ stop. (given : List ℕ) → N.Leaves source.old given
        → IsFaultAhead (path_type closed) given stop) }
{
    let Some(mut first) = source.next_number() else {
        return Err((CommandCode::Unfinished, 0).into());
    };
    let mut cursor = Cursor::ORIGIN;
    'paths: loop {
        read_path(&mut Nothing, first, source, &mut cursor, closed)?;
        match source.next_number() {
            Some(number) => first = number,
            None => return Ok(()),
        }
    }
}
