//! Where the parameters of geometry commands lead (Mapbox Vector Tile Specification 2.1, section
//! 4.3.2).

ghost use Rattle.std.specs.Prelude.{◌≡◌, ◌≢◌, IfErr, IfOk, Some, ◌+ℤ◌, ◌-ℤ◌};
ghost use Rattle.mvt_confirm.specs.Calls.Commands.{IsNoMove};
ghost use Rattle.mvt_plane.specs.Commands.CommandFault.{greatest_parameter};
ghost use Rattle.mvt_plane.specs.Commands.Drawing.{IsMove, unzigzag};
ghost use Rattle.mvt_plane.specs.Commands.Figure.{IsStep, zigzag};
ghost use Rattle.mvt_plane.specs.Position.{Position};

use mvt_fault::CommandCode;
use mvt_plane::Point;
use mvt_wire::unzigzag32;

/// The parameter that means -2^31, which isn't allowed.
const GREATEST_PARAMETER: u32 = 4294967295;

/// The position to which a parameter leads along the x axis.
///
/// Errors: `GreatestParameter`, or `OutOfBounds` where that isn't from -2^30 to 2^30.
pub(crate) fn moved_x(from: Point, parameter: u32) -> Result<Point, CommandCode>
    ensures allowed { IfOk result (λ _. IsMove from.x parameter) }
    ensures there { IfOk result (λ to. to
        ≡ record { x = from.x +ℤ unzigzag parameter; y = from.y }) }
    ensures fault { IfErr result (IsNoMove from.x parameter) }
{
    let x = moved(from.x(), parameter)?;
    match Point::new(x, from.y()) {
        Some(to) => Ok(to),
        None => Err(CommandCode::OutOfBounds),
    }
}

/// The position to which a parameter leads along the y axis.
///
/// Errors: `GreatestParameter`, or `OutOfBounds` where that isn't from -2^30 to 2^30.
pub(crate) fn moved_y(from: Point, parameter: u32) -> Result<Point, CommandCode>
    ensures allowed { IfOk result (λ _. IsMove from.y parameter) }
    ensures there { IfOk result (λ to. to
        ≡ record { x = from.x; y = from.y +ℤ unzigzag parameter }) }
    ensures fault { IfErr result (IsNoMove from.y parameter) }
{
    let y = moved(from.y(), parameter)?;
    match Point::new(from.x(), y) {
        Some(to) => Ok(to),
        None => Err(CommandCode::OutOfBounds),
    }
}

/// The position to which the two parameters of a step lead; None where one of them isn't allowed.
pub(crate) fn moved_by(from: Point, x: u32, y: u32) -> Option<Point>
    ensures { (to : Position) → IsStep from to → x ≡ zigzag (to.x -ℤ from.x)
        → y ≡ zigzag (to.y -ℤ from.y) → result ≡ Some to }
{
    let beside = moved_x(from, x).ok()?;
    moved_y(beside, y).ok()
}

/// The number to which a parameter leads from a coordinate, in range or not.
fn moved(from: i32, parameter: u32) -> Result<i32, CommandCode>
    ensures other { IfOk result (λ _. parameter ≢ greatest_parameter) }
    ensures there { IfOk result (λ to. to ≡ from +ℤ unzigzag parameter) }
    ensures fault { IfErr result (IsNoMove from parameter) }
{
    if parameter == GREATEST_PARAMETER {
        return Err(CommandCode::GreatestParameter);
    }
    match from.checked_add(unzigzag32(parameter)) {
        Some(to) => Ok(to),
        None => Err(CommandCode::OutOfBounds),
    }
}
