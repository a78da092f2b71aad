//! What is wrong with the commands of a geometry (Mapbox Vector Tile Specification 2.1, section
//! 4.3).

ghost use Rattle.std.specs.Prelude.{◌≡◌, ◌↔◌, ◌+◌, ℕ, List, Some, None, IsTrue};
ghost use Rattle.mvt_confirm.specs.Calls.Commands.{IsAhead, plane_type};
ghost use Rattle.mvt_fault.specs.Code.{command_code};
ghost use Rattle.mvt_plane.specs.Commands.CommandFault.{HasCommandFault};
ghost use Rattle.mvt_plane.specs.Commands.Figure.{polygon};
ghost use Rattle.mvt_plane.specs.FeatureGeometry.{type_number, BreaksCommands, HasRings};
ghost use Rattle.mvt_plane.specs.Position.{Position};
ghost use Rattle.mvt_wire.specs.Numbers.{NumbersLeft};

use mvt_fault::CommandCode;
use mvt_wire::Numbers;

mod state;

use state::{GeometryType, State};

/// Whether the numbers of a geometry have this command fault, at this index: the code of the first
/// number that isn't allowed, or 403 where they end too early. The kind is the number of the
/// geometry type (section 4.3.4); of an unknown one no commands are known, and so no faults. The
/// numbers are gone through once.
pub(crate) fn breaks_commands(numbers: Numbers, kind: u64, code: CommandCode, index: usize) -> bool
    ensures { (geometry : List ℕ) → NumbersLeft numbers.entry geometry None →
        (IsTrue result ↔ BreaksCommands kind geometry (command_code code) index) }
{
    match GeometryType::of_number(kind) {
        Some(geometry_type) => has_fault(numbers, geometry_type, code, index),
        None => false,
    }
}

/// Whether the numbers of a geometry of a known type have this command fault, at this index.
fn has_fault(
    mut numbers: Numbers,
    geometry_type: GeometryType,
    code: CommandCode,
    index: usize,
) -> bool
    ensures { (geometry : List ℕ) → NumbersLeft numbers.entry geometry None →
        (IsTrue result ↔ HasCommandFault (plane_type geometry_type) geometry (command_code code)
        index) }
{
    let mut state = State::start(geometry_type);
    // How many numbers are in front of the index; None after it.
    let mut before = Some(index);
    'numbers: while let Some(item) = numbers.next_number() {
        let Ok(number) = item else {
            return false;
        };
        match state.next(geometry_type, number) {
            Ok(next) => state = next,
            Err(fault) => return is_this(before, fault, code),
        }
        before = one_less(before);
    }
    !state.may_end() && is_this(before, CommandCode::Unfinished, code)
}

/// Whether the numbers of a geometry draw rings (section 4.3.4.4). They are gone through once.
pub(crate) fn draws_rings(mut numbers: Numbers) -> bool
    ensures { (geometry : List ℕ) → NumbersLeft numbers.entry geometry None →
        (IsTrue result ↔ ((rings : List (List Position))
        × HasRings (type_number polygon) geometry rings)) }
{
    let mut state = State::start(GeometryType::Polygon);
    'numbers: while let Some(item) = numbers.next_number() {
        let Ok(number) = item else {
            return false;
        };
        let Ok(next) = state.next(GeometryType::Polygon, number) else {
            return false;
        };
        state = next;
    }
    state.may_end()
}

/// Whether the fault that was found has this code, and was found at the given index (`before` is
/// 0).
fn is_this(before: Option<usize>, fault: CommandCode, code: CommandCode) -> bool
    ensures { IsTrue result ↔ ((before ≡ Some 0) × (command_code fault ≡ command_code code)) }
{
    before == Some(0) && fault.code() == code.code()
}

/// One less, or None where none are left.
fn one_less(before: Option<usize>) -> Option<usize>
    ensures { (passed index : ℕ) → IsAhead before passed index → IsAhead result (passed + 1) index }
{
    before?.checked_sub(1)
}
