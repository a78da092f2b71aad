//! What draws one ring after another.
ghost use Rattle.std.specs.Prelude.{◌≡◌, ◌<◌, ◌≤◌, ◌-ℤ◌, IfOk, IfSome, IsTrue, length};
ghost use Rattle.mvt_mend.specs.Calls.Pen.{AreStepsDrawn, IsCommandAt, IsRingDrawn, IsStepAt};
ghost use Rattle.mvt_plane.specs.Commands.Figure.{zigzag};
ghost use Rattle.mvt_plane.specs.Position.{IsCoordinate};

use mvt_plane::{CLOSE_PATH, GREATEST_COORDINATE, LINE_TO, MOVE_TO, Point};
use mvt_wire::unzigzag32;
use std::alloc::{AllocError, Global};

/// Where a reader of numbers is.
#[derive(Clone, Copy)]
pub(crate) struct Pen {
    /// The place of the number that comes next.
    pub(crate) at: usize,
    /// The position of the cursor.
    pub(crate) here: Point,
}

/// Draws a ring: a MoveTo, a LineTo to any number of positions, and a ClosePath (Mapbox Vector Tile
/// Specification 2.1, section 4.3.4.4). None where something else is there. The only error is that
/// memory was refused.
pub(super) fn draw_ring(
    alloc: Global,
    numbers: &[u32],
    pen: &mut Pen,
) -> Result<Option<Vec<Point>>, AllocError>
    requires { pen.old.at ≤ length numbers.now }
    ensures { IfOk result (λ drawn. IfSome drawn (λ ring.
        IsRingDrawn numbers.now pen.old pen.new ring.items)) }
{
    let at = pen.at;
    if !is_command(numbers, at, MOVE_TO) {
        return Ok(None);
    }
    let Some(first) = step_at(numbers, at + 1, pen.here) else {
        return Ok(None);
    };
    let Some(count) = command_at(numbers, at + 3, LINE_TO) else {
        return Ok(None);
    };
    let mut ring = Vec::with_capacity(alloc, most_positions(numbers, at, count))?;
    ring.push(first)?;
    pen.at = at + 4;
    pen.here = first;
    if !draw_steps(numbers, pen, count, &mut ring)? {
        return Ok(None);
    }
    if !is_command(numbers, pen.at, CLOSE_PATH) {
        return Ok(None);
    }
    pen.at += 1;
    Ok(Some(ring))
}

/// How many positions a ring has at most that begins at a place, with so many after its first one: no
/// more than there are numbers for.
fn most_positions(numbers: &[u32], at: usize, count: u32) -> usize {
    let steps = numbers.len().saturating_sub(at) / 2;
    steps.min(count as usize).saturating_add(1)
}

/// Draws so many steps, and adds the positions where they lead. Returns whether they are there.
fn draw_steps(
    numbers: &[u32],
    pen: &mut Pen,
    count: u32,
    ring: &mut Vec<Point>,
) -> Result<bool, AllocError>
    requires { pen.old.at ≤ length numbers.now }
    ensures { IfOk result (λ drawn. IsTrue drawn
        → AreStepsDrawn numbers.now pen.old pen.new count ring.old.items ring.new.items) }
{
    for step in 0..count {
        let Some(to) = step_at(numbers, pen.at, pen.here) else {
            return Ok(false);
        };
        ring.push(to)?;
        pen.at += 2;
        pen.here = to;
    }
    Ok(true)
}

/// Whether the command with this id and a count of 1 is at a place.
fn is_command(numbers: &[u32], at: usize, id: u32) -> bool
    requires { id < 8 }
    ensures { IsTrue result → IsCommandAt numbers.now at id 1 }
{
    match command_at(numbers, at, id) {
        Some(count) => count == 1,
        None => false,
    }
}

/// The count of the command at a place, or None where no command with this id is there.
fn command_at(numbers: &[u32], at: usize, id: u32) -> Option<u32>
    requires { id < 8 }
    ensures { IfSome result (IsCommandAt numbers.now at id) }
{
    if at >= numbers.len() {
        return None;
    }
    let number = numbers[at];
    if number % 8 == id {
        Some(number / 8)
    } else {
        None
    }
}

/// The position to which the step at a place leads, or None where there is none, or where it leads
/// out of range.
fn step_at(numbers: &[u32], at: usize, from: Point) -> Option<Point>
    ensures { IfSome result (IsStepAt numbers.now at from) }
{
    if at >= numbers.len() || numbers.len() - at < 2 {
        return None;
    }
    let Some(x) = coordinate(from.x(), numbers[at]) else {
        return None;
    };
    let Some(y) = coordinate(from.y(), numbers[at + 1]) else {
        return None;
    };
    match Point::new(x, y) {
        Some(to) => Some(to),
        None => None,
    }
}

/// The coordinate to which a parameter leads from another one, or None where it leads out of range.
fn coordinate(from: i32, parameter: u32) -> Option<i32>
    ensures parameter { IfSome result (λ to. parameter ≡ zigzag (to -ℤ from)) }
    ensures in_range { IfSome result IsCoordinate }
{
    let to = from.checked_add(unzigzag32(parameter))?;
    if to < -GREATEST_COORDINATE || to > GREATEST_COORDINATE {
        return None;
    }
    Some(to)
}
