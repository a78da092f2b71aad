//! The commands of a geometry, read number by number from a source (Mapbox Vector Tile
//! Specification 2.1, section 4.3). Each reader gets the place of the number that comes next,
//! counted from 0. An error is the cause and the place of the first number that isn't allowed.
ghost use Rattle.std.specs.Prelude.{◌≡◌, ◌+◌, ◌^◌, ◌<◌, ◌≤◌, ◌∷◌, ℕ, Bool, true, false, IfErr, IfOk, List, OnOk, Some, None, drop, length, slice_index, ◌+ℤ◌};
ghost use Rattle.mvt_plane.specs.Calls.Reading.{StandsAt, IsFaulty};
ghost use Rattle.mvt_plane.specs.Commands.Reading.{AsksCommand, AsksCoordinate, is_line, path_type, with_left};
ghost use Rattle.mvt_plane.specs.Position.{Position, IsCoordinate, IsPosition};
ghost use Rattle.mvt_draw.specs.Calls.Cursor.{position_of, course_of};
ghost use Rattle.mvt_draw.specs.Calls.Given.{IsNumberThere, IsPairThere, IsGivenAt};
ghost use Rattle.mvt_fault.specs.Code.{command_code};
ghost use Rattle.mvt_plane.specs.Calls.Course.{AreStepsAhead};
ghost use Rattle.mvt_plane.specs.Commands.Course.{IsPathAhead, IsStepAhead};
ghost use Rattle.mvt_plane.specs.Commands.Drawing.{Leg, State, MayEnd, IsMove, unzigzag, following, least, path_command, step_x, next};
ghost use Rattle.mvt_plane.specs.Commands.Figure.{GeometryType, command_integer};

use mvt_fault::CommandCode;
use mvt_plane::{GREATEST_COORDINATE, GREATEST_COUNT, LINE_TO, MOVE_TO};
use mvt_wire::{NumberSource, unzigzag32};

/// A parameter below 2^14 leads from no coordinate up to this out of the range.
const INNER: i32 = GREATEST_COORDINATE - (1 << 13);

/// Where a reader of a geometry is.
#[derive(Clone, Copy, Debug, PartialEq, Eq)]
pub(crate) struct Cursor {
    /// The coordinate along the x axis.
    pub(crate) x: i32,
    /// The coordinate along the y axis.
    pub(crate) y: i32,
    /// The place of the number that comes next.
    pub(crate) at: usize,
}

impl Cursor {
    /// Where a geometry begins.
    pub(crate) const ORIGIN: Cursor = Cursor { x: 0, y: 0, at: 0 };
}

/// The count of a command, which is to have this id and a count from `fewest` to `most`: the number
/// at a place, or None where the numbers end there.
pub(crate) fn command(
    number: Option<u32>,
    at: usize,
    id: u32,
    fewest: u32,
    most: u32,
) -> Result<u32, (CommandCode, usize)>
    ensures count { IfOk result (λ count. (fewest ≤ count) × (count ≤ most)) }
    ensures number { IfOk result (λ count. number ≡ Some (command_integer id count)) }
    ensures goes { IfOk result (λ count. (numbers : List ℕ) → IsNumberThere numbers at number
        → (geometry_type : GeometryType) (state : State)
        → AsksCommand geometry_type state id fewest most
        → StandsAt geometry_type numbers at state
        → StandsAt geometry_type numbers (at + 1) (next geometry_type state
        (command_integer id count))) }
    ensures fault { IfErr result (λ stop. (numbers : List ℕ) → IsNumberThere numbers at number
        → (geometry_type : GeometryType) (state : State)
        → AsksCommand geometry_type state id fewest most
        → (number ≡ None → ¬ MayEnd state) → StandsAt geometry_type numbers at state
        → IsFaulty geometry_type numbers (command_code stop.0) stop.1) }
{
    let Some(number) = number else {
        return Err((CommandCode::Unfinished, at));
    };
    if number % 8 != id {
        return Err((CommandCode::OtherCommand, at));
    }
    let count = number / 8;
    if count < fewest || count > most {
        return Err((CommandCode::OtherCount, at));
    }
    Ok(count)
}

/// The coordinate where the next number, a parameter, leads from another one (section 4.3.2).
#[inline(always)]
fn coordinate<N: NumberSource + Drop>(
    source: &mut N,
    at: usize,
    from: i32,
) -> Result<i32, (CommandCode, usize)>
    ensures fewer { OnOk result (N.most source.new < N.most source.old) }
    ensures left { OnOk result ((numbers : List ℕ) → N.Leaves source.old (drop at numbers)
        → (at < length numbers) × N.Leaves source.new (drop (at + 1) numbers)) }
    ensures inside { IfOk result IsCoordinate }
    ensures moves { IfOk result (λ to. (numbers : List ℕ) → N.Leaves source.old (drop at numbers)
        → IsMove from (slice_index numbers at) × (to ≡ from +ℤ unzigzag (slice_index numbers at))) }
    ensures fault { IfErr result (λ stop. (numbers : List ℕ) → N.Leaves source.old (drop at numbers)
        → (geometry_type : GeometryType) (state : State) → AsksCoordinate state from
        → StandsAt geometry_type numbers at state
        → IsFaulty geometry_type numbers (command_code stop.0) stop.1) }
{
    let Some(number) = source.next_number() else {
        return Err((CommandCode::Unfinished, at));
    };
    if number == u32::MAX {
        return Err((CommandCode::GreatestParameter, at));
    }
    moved(number, at, from)
}

/// The coordinate where a parameter leads from another one.
#[inline(always)]
fn moved(number: u32, at: usize, from: i32) -> Result<i32, (CommandCode, usize)>
    requires { number + 1 < 2 ^ 32 }
    ensures inside { IfOk result IsCoordinate }
    ensures moves { IfOk result (λ to. IsMove from number × (to ≡ from +ℤ unzigzag number)) }
    ensures fault { IfErr result (λ stop. (numbers : List ℕ) → IsNumberThere numbers at (Some number)
        → (geometry_type : GeometryType) (state : State) → AsksCoordinate state from
        → StandsAt geometry_type numbers at state
        → IsFaulty geometry_type numbers (command_code stop.0) stop.1) }
{
    let to = i64::from(from) + i64::from(unzigzag32(number));
    let greatest = i64::from(GREATEST_COORDINATE);
    if to < -greatest || to > greatest {
        return Err((CommandCode::OutOfBounds, at));
    }
    Ok(to as i32)
}

/// The same for a parameter below 2^14. From most coordinates it leads to no bound.
#[inline(always)]
fn near(number: u32, at: usize, from: i32) -> Result<i32, (CommandCode, usize)>
    requires { number < 2 ^ 14 }
    ensures inside { IfOk result IsCoordinate }
    ensures moves { IfOk result (λ to. IsMove from number × (to ≡ from +ℤ unzigzag number)) }
    ensures fault { IfErr result (λ stop. (numbers : List ℕ) → IsNumberThere numbers at (Some number)
        → (geometry_type : GeometryType) (state : State) → AsksCoordinate state from
        → StandsAt geometry_type numbers at state
        → IsFaulty geometry_type numbers (command_code stop.0) stop.1) }
{
    if from < -INNER || from > INNER {
        return far(number, at, from);
    }
    Ok(from + unzigzag32(number))
}

/// The same where the coordinate is near a bound.
#[cold]
#[inline(never)]
fn far(number: u32, at: usize, from: i32) -> Result<i32, (CommandCode, usize)>
    requires { number < 2 ^ 14 }
    ensures inside { IfOk result IsCoordinate }
    ensures moves { IfOk result (λ to. IsMove from number × (to ≡ from +ℤ unzigzag number)) }
    ensures fault { IfErr result (λ stop. (numbers : List ℕ) → IsNumberThere numbers at (Some number)
        → (geometry_type : GeometryType) (state : State) → AsksCoordinate state from
        → StandsAt geometry_type numbers at state
        → IsFaulty geometry_type numbers (command_code stop.0) stop.1) }
{
    moved(number, at, from)
}

/// Moves the cursor over its two parameters, to where they lead; of a LineTo they may not stay.
#[inline(always)]
pub(crate) fn step<N: NumberSource + Drop>(
    source: &mut N,
    cursor: &mut Cursor,
    line: bool,
) -> Result<(), (CommandCode, usize)>
    requires few { cursor.old.at + N.most source.old < 2 ^ 64 }
    ensures place { OnOk result (cursor.new.at ≡ cursor.old.at + 2) }
    ensures fewer { OnOk result (N.most source.new + 2 ≤ N.most source.old) }
    ensures left { OnOk result ((numbers : List ℕ)
        → N.Leaves source.old (drop cursor.old.at numbers)
        → N.Leaves source.new (drop cursor.new.at numbers)) }
    ensures goes { OnOk result ((numbers : List ℕ)
        → N.Leaves source.old (drop cursor.old.at numbers)
        → (geometry_type : GeometryType) (leg : Leg) → is_line leg ≡ line
        → StandsAt geometry_type numbers cursor.old.at (step_x leg (position_of cursor.old))
        → StandsAt geometry_type numbers cursor.new.at
        (following geometry_type leg (position_of cursor.new))) }
    ensures fault { IfErr result (λ stop. (numbers : List ℕ)
        → N.Leaves source.old (drop cursor.old.at numbers)
        → (geometry_type : GeometryType) (leg : Leg) → is_line leg ≡ line
        → StandsAt geometry_type numbers cursor.old.at (step_x leg (position_of cursor.old))
        → IsFaulty geometry_type numbers (command_code stop.0) stop.1) }
    ensures inside { OnOk result (IsPosition (position_of cursor.new)) }
    ensures drawn { OnOk result ((numbers : List ℕ)
        → N.Leaves source.old (drop cursor.old.at numbers)
        → (to : Position) (rest : List ℕ)
        → IsStepAhead (course_of numbers cursor.old) to rest
        → course_of numbers cursor.new ≡ record { here = to; left = rest }) }
{
    // (so it is with most parameters)
    match source.next_small_pair() {
        Some((x, y)) => short_step(x, y, cursor, line),
        None => match source.next_short_pair() {
            Some((x, y)) => short_step(x, y, cursor, line),
            None => any_step(source, cursor, line),
        },
    }
}

/// The same for two parameters below 2^14, which stand at the cursor. None of them is the greatest.
#[inline(always)]
fn short_step(x: u32, y: u32, cursor: &mut Cursor, line: bool) -> Result<(), (CommandCode, usize)>
    requires few { cursor.old.at + 2 < 2 ^ 64 }
    requires small { (x < 2 ^ 14) × (y < 2 ^ 14) }
    ensures place { OnOk result (cursor.new.at ≡ cursor.old.at + 2) }
    ensures goes { OnOk result ((numbers : List ℕ) → IsPairThere numbers cursor.old.at x y
        → (geometry_type : GeometryType) (leg : Leg) → is_line leg ≡ line
        → StandsAt geometry_type numbers cursor.old.at (step_x leg (position_of cursor.old))
        → StandsAt geometry_type numbers cursor.new.at
        (following geometry_type leg (position_of cursor.new))) }
    ensures fault { IfErr result (λ stop. (numbers : List ℕ)
        → IsPairThere numbers cursor.old.at x y
        → (geometry_type : GeometryType) (leg : Leg) → is_line leg ≡ line
        → StandsAt geometry_type numbers cursor.old.at (step_x leg (position_of cursor.old))
        → IsFaulty geometry_type numbers (command_code stop.0) stop.1) }
    ensures inside { OnOk result (IsPosition (position_of cursor.new)) }
    ensures drawn { OnOk result ((numbers : List ℕ) → IsPairThere numbers cursor.old.at x y
        → (to : Position) (rest : List ℕ)
        → IsStepAhead (course_of numbers cursor.old) to rest
        → course_of numbers cursor.new ≡ record { here = to; left = rest }) }
{
    let at = cursor.at;
    let to_x = near(x, at, cursor.x)?;
    let to_y = near(y, at + 1, cursor.y)?;
    if line && x == 0 && y == 0 {
        return Err((CommandCode::NoStep, at + 1));
    }
    cursor.at = at + 2;
    cursor.x = to_x;
    cursor.y = to_y;
    Ok(())
}

/// The same for any two parameters, one after the other.
#[inline(always)]
fn any_step<N: NumberSource + Drop>(
    source: &mut N,
    cursor: &mut Cursor,
    line: bool,
) -> Result<(), (CommandCode, usize)>
    requires few { cursor.old.at + N.most source.old < 2 ^ 64 }
    ensures place { OnOk result (cursor.new.at ≡ cursor.old.at + 2) }
    ensures fewer { OnOk result (N.most source.new + 2 ≤ N.most source.old) }
    ensures left { OnOk result ((numbers : List ℕ)
        → N.Leaves source.old (drop cursor.old.at numbers)
        → N.Leaves source.new (drop cursor.new.at numbers)) }
    ensures goes { OnOk result ((numbers : List ℕ)
        → N.Leaves source.old (drop cursor.old.at numbers)
        → (geometry_type : GeometryType) (leg : Leg) → is_line leg ≡ line
        → StandsAt geometry_type numbers cursor.old.at (step_x leg (position_of cursor.old))
        → StandsAt geometry_type numbers cursor.new.at
        (following geometry_type leg (position_of cursor.new))) }
    ensures fault { IfErr result (λ stop. (numbers : List ℕ)
        → N.Leaves source.old (drop cursor.old.at numbers)
        → (geometry_type : GeometryType) (leg : Leg) → is_line leg ≡ line
        → StandsAt geometry_type numbers cursor.old.at (step_x leg (position_of cursor.old))
        → IsFaulty geometry_type numbers (command_code stop.0) stop.1) }
    ensures inside { OnOk result (IsPosition (position_of cursor.new)) }
    ensures drawn { OnOk result ((numbers : List ℕ)
        → N.Leaves source.old (drop cursor.old.at numbers)
        → (to : Position) (rest : List ℕ)
        → IsStepAhead (course_of numbers cursor.old) to rest
        → course_of numbers cursor.new ≡ record { here = to; left = rest }) }
{
    let x = coordinate(source, cursor.at, cursor.x)?;
    let y = coordinate(source, cursor.at + 1, cursor.y)?;
    if line && x == cursor.x && y == cursor.y {
        return Err((CommandCode::NoStep, cursor.at + 1));
    }
    // Each field by itself: a new cursor would go through memory at each step.
    cursor.at += 2;
    cursor.x = x;
    cursor.y = y;
    Ok(())
}

/// Reads a line or ring up to its further positions, and answers how many those are: the cursor
/// goes to its first position. Its first number, at the cursor, was read before.
#[inline(always)]
pub(crate) fn path_start<N: NumberSource + Drop>(
    first: u32,
    source: &mut N,
    cursor: &mut Cursor,
    closed: bool,
) -> Result<u32, (CommandCode, usize)>
    requires few { cursor.old.at + 1 + N.most source.old < 2 ^ 64 }
    ensures forward { OnOk result (cursor.old.at < cursor.new.at) }
    ensures fewer { OnOk result (cursor.new.at + N.most source.new
        ≤ cursor.old.at + 1 + N.most source.old) }
    ensures left { OnOk result ((numbers : List ℕ)
        → IsGivenAt (N.Leaves source.old) numbers cursor.old.at first
        → N.Leaves source.new (drop cursor.new.at numbers)) }
    ensures inside { OnOk result (IsPosition (position_of cursor.new)) }
    ensures goes { IfOk result (λ count. (numbers : List ℕ)
        → IsGivenAt (N.Leaves source.old) numbers cursor.old.at first
        → (drawn : Bool) → StandsAt (path_type closed) numbers cursor.old.at
        (path_command drawn (position_of cursor.old))
        → StandsAt (path_type closed) numbers cursor.new.at
        (with_left (path_type closed) true count (position_of cursor.new))) }
    ensures drawn { IfOk result (λ count. (numbers : List ℕ)
        → IsGivenAt (N.Leaves source.old) numbers cursor.old.at first
        → (part : List Position) (rest : List ℕ)
        → IsPathAhead (course_of numbers cursor.old) part rest
        → (further : List Position) × (position_of cursor.new ∷ further ≡ part)
        × AreStepsAhead (course_of numbers cursor.new) count further rest) }
    ensures fault { IfErr result (λ stop. (numbers : List ℕ)
        → IsGivenAt (N.Leaves source.old) numbers cursor.old.at first
        → (drawn : Bool) → StandsAt (path_type closed) numbers cursor.old.at
        (path_command drawn (position_of cursor.old))
        → IsFaulty (path_type closed) numbers (command_code stop.0) stop.1) }
{
    command(Some(first), cursor.at, MOVE_TO, 1, 1)?;
    cursor.at += 1;
    step(source, cursor, false)?;
    let fewest = fewest_further(closed);
    let count = command(
        source.next_number(),
        cursor.at,
        LINE_TO,
        fewest,
        GREATEST_COUNT,
    )?;
    cursor.at += 1;
    Ok(count)
}

/// How many positions at least are after the first one of a line or ring.
fn fewest_further(closed: bool) -> u32
    ensures { result ≡ least (path_type closed) }
{
    if closed { 2 } else { 1 }
}
