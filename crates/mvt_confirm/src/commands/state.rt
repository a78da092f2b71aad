//! What is due in a geometry's numbers, one number after another.

ghost use Rattle.std.specs.Prelude.{◌≡◌, ◌↔◌, ◌-◌, ◌%◌, ◌/◌, ◌≢◌, ◌≤◌, IfErr, IfOk, IfSome, IfNone, IsFalse, IsTrue, Bool};
ghost use Rattle.mvt_confirm.specs.Calls.Commands.{Faults, Goes, IsCommandOf, IsNoCommand, IsStay, before_x, plane_type, plane_leg, plane_state};
ghost use Rattle.mvt_plane.specs.Commands.Drawing as plane;
ghost use Rattle.mvt_plane.specs.Commands.Drawing.{GoesElsewhere, MayEnd, following, after_path, least, points_command, path_command, line_command, close_command, step_x, step_y};
ghost use Rattle.mvt_plane.specs.Commands.Figure as figures;
ghost use Rattle.mvt_plane.specs.FeatureGeometry.{type_number};

use crate::moves::{moved_x, moved_y};
use mvt_fault::CommandCode;
use mvt_plane::{CLOSE_PATH, GREATEST_COUNT, LINE_TO, MOVE_TO, Point};

/// The geometry types that have figures (section 4.3.4).
#[derive(Clone, Copy)]
pub(crate) enum GeometryType {
    Point,
    LineString,
    Polygon,
}

impl GeometryType {
    /// The type of this number; None where it isn't known.
    pub(crate) fn of_number(number: u64) -> Option<GeometryType>
        ensures known { IfSome result (λ geometry_type. number
            ≡ type_number (plane_type geometry_type)) }
        ensures unknown { IfNone result ((geometry_type : figures.GeometryType)
            → number ≢ type_number geometry_type) }
    {
        match number {
            1 => Some(GeometryType::Point),
            2 => Some(GeometryType::LineString),
            3 => Some(GeometryType::Polygon),
            _ => None,
        }
    }
}

/// A step that is due.
#[derive(Clone, Copy)]
pub(crate) enum Leg {
    /// To one of a list of points, with so many to go after it.
    ToPoint { left: u32 },
    /// To the first position of a line or ring.
    ToFirst,
    /// To a further position of it, with so many to go after it.
    ToNext { left: u32 },
}

/// What is due, and where the cursor is.
#[derive(Clone, Copy)]
pub(crate) enum State {
    /// The MoveTo of points.
    PointsCommand,
    /// The MoveTo of a line or ring, where one is drawn already or none.
    PathCommand { drawn: bool, from: Point },
    /// The LineTo of a line or ring.
    LineCommand { from: Point },
    /// The ClosePath of a ring.
    CloseCommand { from: Point },
    /// The x of a step.
    StepX { leg: Leg, from: Point },
    /// The y of a step after this x, which leads to an x that isn't the cursor's.
    StepY { leg: Leg, beside: Point, x: u32 },
    /// Nothing, after all points.
    AllDrawn,
}

impl State {
    /// In front of the first number of a geometry.
    pub(crate) fn start(geometry_type: GeometryType) -> State
        ensures { plane_state result ≡ plane.start (plane_type geometry_type) }
    {
        match geometry_type {
            GeometryType::Point => State::PointsCommand,
            GeometryType::LineString | GeometryType::Polygon => State::PathCommand {
                drawn: false,
                from: Point::origin(),
            },
        }
    }

    /// Whether the numbers may end here.
    pub(crate) fn may_end(self) -> bool
        ensures { IsTrue result ↔ MayEnd (plane_state self) }
    {
        matches!(
            self,
            State::PathCommand { drawn: true, .. } | State::AllDrawn
        )
    }

    /// The state after a number.
    ///
    /// Errors: what is wrong with the number where it isn't allowed.
    pub(crate) fn next(self, geometry_type: GeometryType, number: u32) -> Result<State, CommandCode>
        ensures goes { IfOk result (λ to.
            Goes (plane_type geometry_type) (plane_state self) number (plane_state to)) }
        ensures fault { IfErr result (Faults (plane_type geometry_type) (plane_state self) number) }
    {
        match self {
            State::PointsCommand => after_points_command(number),
            State::PathCommand { from, .. } => after_path_command(from, number),
            State::LineCommand { from } => after_line_command(geometry_type, from, number),
            State::CloseCommand { from } => after_close_command(from, number),
            State::StepX { leg, from } => after_x(leg, from, number),
            State::StepY { leg, beside, x } => after_y(geometry_type, leg, beside, x, number),
            State::AllDrawn => Err(CommandCode::OtherCommand),
        }
    }
}

/// After the MoveTo of points.
fn after_points_command(number: u32) -> Result<State, CommandCode>
    ensures goes { IfOk result (λ to. (geometry_type : figures.GeometryType)
        → Goes geometry_type points_command number (plane_state to)) }
    ensures fault { IfErr result (λ code. (geometry_type : figures.GeometryType)
        → Faults geometry_type points_command number code) }
{
    let count = command(number, MOVE_TO, 1, GREATEST_COUNT)?;
    Ok(State::StepX {
        leg: Leg::ToPoint { left: count - 1 },
        from: Point::origin(),
    })
}

/// After the MoveTo of a line or ring.
fn after_path_command(from: Point, number: u32) -> Result<State, CommandCode>
    ensures goes { IfOk result (λ to. (geometry_type : figures.GeometryType) (drawn : Bool)
        → Goes geometry_type (path_command drawn from) number (plane_state to)) }
    ensures fault { IfErr result (λ code. (geometry_type : figures.GeometryType) (drawn : Bool)
        → Faults geometry_type (path_command drawn from) number code) }
{
    command(number, MOVE_TO, 1, 1)?;
    let leg = Leg::ToFirst;
    Ok(State::StepX { leg, from })
}

/// After the LineTo of a line or ring.
fn after_line_command(
    geometry_type: GeometryType,
    from: Point,
    number: u32,
) -> Result<State, CommandCode>
    ensures goes { IfOk result (λ to.
        Goes (plane_type geometry_type) (line_command from) number (plane_state to)) }
    ensures fault { IfErr result (Faults (plane_type geometry_type) (line_command from) number) }
{
    let count = command(
        number,
        LINE_TO,
        least_further(geometry_type),
        GREATEST_COUNT,
    )?;
    let leg = Leg::ToNext { left: count - 1 };
    Ok(State::StepX { leg, from })
}

/// How many positions at least are after the first one of a line or ring.
fn least_further(geometry_type: GeometryType) -> u32
    ensures value { result ≡ least (plane_type geometry_type) }
    ensures some { 1 ≤ result }
{
    match geometry_type {
        GeometryType::Point | GeometryType::LineString => 1,
        GeometryType::Polygon => 2,
    }
}

/// After the ClosePath of a ring.
fn after_close_command(from: Point, number: u32) -> Result<State, CommandCode>
    ensures goes { IfOk result (λ to. (geometry_type : figures.GeometryType)
        → Goes geometry_type (close_command from) number (plane_state to)) }
    ensures fault { IfErr result (λ code. (geometry_type : figures.GeometryType)
        → Faults geometry_type (close_command from) number code) }
{
    command(number, CLOSE_PATH, 1, 1)?;
    Ok(State::PathCommand { drawn: true, from })
}

/// The count of a command integer, which is to have this id and a count from `fewest` to `most`
/// (section 4.3.1).
fn command(number: u32, id: u32, fewest: u32, most: u32) -> Result<u32, CommandCode>
    ensures count { IfOk result (λ count. count ≡ number / 8) }
    ensures allowed { IfOk result (λ _. IsCommandOf id fewest most number) }
    ensures fault { IfErr result (IsNoCommand id fewest most number) }
{
    if number % 8 != id {
        return Err(CommandCode::OtherCommand);
    }
    let count = number / 8;
    if count < fewest || count > most {
        return Err(CommandCode::OtherCount);
    }
    Ok(count)
}

/// After the x of a step.
fn after_x(leg: Leg, from: Point, x: u32) -> Result<State, CommandCode>
    ensures goes { IfOk result (λ to. (geometry_type : figures.GeometryType)
        → Goes geometry_type (step_x (plane_leg leg) from) x (plane_state to)) }
    ensures fault { IfErr result (λ code. (geometry_type : figures.GeometryType)
        → Faults geometry_type (step_x (plane_leg leg) from) x code) }
{
    let beside = moved_x(from, x)?;
    Ok(State::StepY { leg, beside, x })
}

/// After the y of a step whose x isn't the cursor's.
fn after_y(
    geometry_type: GeometryType,
    leg: Leg,
    beside: Point,
    x: u32,
    y: u32,
) -> Result<State, CommandCode>
    ensures goes { IfOk result (λ to.
        Goes (plane_type geometry_type) (step_y (plane_leg leg) (before_x beside x) x) y
        (plane_state to)) }
    ensures fault { IfErr result (Faults (plane_type geometry_type)
        (step_y (plane_leg leg) (before_x beside x) x) y) }
{
    let to = moved_y(beside, y)?;
    if stays(leg, x, y) {
        return Err(CommandCode::NoStep);
    }
    Ok(following(geometry_type, leg, to))
}

/// Whether these are the parameters of a LineTo that leads to where the cursor is.
fn stays(leg: Leg, x: u32, y: u32) -> bool
    ensures stays { IsTrue result → IsStay (plane_leg leg) x y }
    ensures goes { IsFalse result → GoesElsewhere (plane_leg leg) x y }
{
    matches!(leg, Leg::ToNext { .. }) && x == 0 && y == 0
}

/// After a step.
fn following(geometry_type: GeometryType, leg: Leg, to: Point) -> State
    ensures { plane_state result ≡ plane.following (plane_type geometry_type) (plane_leg leg) to }
{
    match leg {
        Leg::ToPoint { left: 0 } => State::AllDrawn,
        Leg::ToPoint { left } => {
            let leg = Leg::ToPoint { left: left - 1 };
            State::StepX { leg, from: to }
        }
        Leg::ToFirst => State::LineCommand { from: to },
        Leg::ToNext { left: 0 } => after_path(geometry_type, to),
        Leg::ToNext { left } => {
            let leg = Leg::ToNext { left: left - 1 };
            State::StepX { leg, from: to }
        }
    }
}

/// After the last position of a line or ring.
fn after_path(geometry_type: GeometryType, to: Point) -> State
    ensures { plane_state result ≡ plane.after_path (plane_type geometry_type) to }
{
    match geometry_type {
        GeometryType::Point | GeometryType::LineString => State::PathCommand {
            drawn: true,
            from: to,
        },
        GeometryType::Polygon => State::CloseCommand { from: to },
    }
}
