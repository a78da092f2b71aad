//! Points and lines, passed over without their positions (Mapbox Vector Tile Specification 2.1,
//! section 4.3). A step leads no further along an axis than its parameter says, so no position leaves
//! the range where the sum of all parameters doesn't.
ghost use Rattle.std.specs.Prelude.{◌≡◌, ◌+◌, ◌*◌, ◌^◌, ◌<◌, ◌≤◌, ◌∷◌, ℕ, Bool, true, List, IfSome, IsFalse, IsTrue, Some};
ghost use Rattle.mvt_draw.specs.Calls.Reach.{Follows, Reaches};
ghost use Rattle.mvt_plane.specs.Commands.Drawing.{Leg, following, path_command, step_x};
ghost use Rattle.mvt_plane.specs.Commands.Figure.{GeometryType, IsCount, command_integer, line_string, point};
ghost use Rattle.mvt_plane.specs.Commands.Reading.{is_line, with_left};
ghost use Rattle.mvt_plane.specs.FeatureGeometry.{HasFigure, type_number};

use mvt_plane::{LINE_TO, MOVE_TO};
use mvt_wire::NumberSource;

/// The greatest sum of parameters, which is the greatest coordinate.
const FARTHEST: u64 = 1 << 30;

/// A MoveTo to one position.
const ONE_MOVE: u32 = 9;

/// Whether the numbers are known to draw points (section 4.3.4.2). False may be said of any numbers.
#[inline(always)]
pub fn draws_points<N: NumberSource + Drop>(mut source: N) -> bool
    ensures { IsTrue result → (given : List ℕ) → N.Leaves source given
        → HasFigure (type_number point) given }
{
    let Some(count) = count_of(source.next_number(), MOVE_TO) else {
        return false;
    };
    let mut reach = 0;
    if !pass_steps(&mut source, &mut reach, count, false) {
        return false;
    }
    if reach > FARTHEST {
        return false;
    }
    match source.next_number() {
        None => true,
        Some(_further) => false,
    }
}

/// Whether the numbers are known to draw lines (section 4.3.4.3). False may be said of any numbers.
#[inline(never)]
pub fn draws_lines<N: NumberSource + Drop>(mut source: N) -> bool
    ensures { IsTrue result → (given : List ℕ) → N.Leaves source given
        → HasFigure (type_number line_string) given }
{
    let Some(mut first) = source.next_number() else {
        return false;
    };
    let mut reach = 0;
    'lines: loop {
        if !pass_line(first, &mut source, &mut reach) {
            return false;
        }
        match source.next_number() {
            Some(number) => first = number,
            None => return true,
        }
    }
}

/// Whether a line is known to come next that stays in the range. Its first number was read before. Adds
/// its parameters.
#[inline(always)]
fn pass_line<N: NumberSource + Drop>(first: u32, source: &mut N, reach: &mut u64) -> bool
    requires near { reach.old ≤ 2 ^ 30 }
    ensures near { IsTrue result → reach.new ≤ 2 ^ 30 }
    ensures fewer { IsTrue result → N.most source.new ≤ N.most source.old }
    ensures passes { IsTrue result → (drawn : Bool) (numbers : List ℕ)
        → Reaches line_string numbers (Follows first (N.Leaves source.old)) reach.old
        (path_command drawn)
        → Reaches line_string numbers (N.Leaves source.new) reach.new (path_command true) }
{
    if first != ONE_MOVE {
        return false;
    }
    if !pass_step(source, reach, false) {
        return false;
    }
    let Some(count) = count_of(source.next_number(), LINE_TO) else {
        return false;
    };
    if !pass_steps(source, reach, count, true) {
        return false;
    }
    *reach <= FARTHEST
}

/// The count of a command with this id, where it isn't 0: of the number, or of None where the numbers
/// end (section 4.3.1).
#[inline(always)]
fn count_of(number: Option<u32>, id: u32) -> Option<u32>
    ensures some { IfSome result (λ count. 1 ≤ count) }
    ensures counted { IfSome result IsCount }
    ensures number { IfSome result (λ count. number ≡ Some (command_integer id count)) }
{
    let number = number?;
    if number % 8 != id || number < 8 {
        return None;
    }
    Some(number / 8)
}

/// Whether so many steps come next; those of a LineTo may not stay. Adds their parameters.
#[inline(always)]
fn pass_steps<N: NumberSource + Drop>(
    source: &mut N,
    reach: &mut u64,
    count: u32,
    line: bool,
) -> bool
    requires counted { IsCount count }
    requires near { reach.old < 2 ^ 34 }
    ensures fewer { IsTrue result → N.most source.new ≤ N.most source.old }
    ensures passes { IsTrue result → (geometry_type : GeometryType) (numbers : List ℕ)
        → Reaches geometry_type numbers (N.Leaves source.old) reach.old
        (with_left geometry_type line count)
        → Reaches geometry_type numbers (N.Leaves source.new) reach.new
        (with_left geometry_type line 0) }
{
    let mut left = count;
    'steps: while left > 0 {
        if !pass_step(source, reach, line) {
            return false;
        }
        left -= 1;
    }
    true
}

/// Whether a step comes next; that of a LineTo may not stay. Adds its two parameters.
#[inline(always)]
fn pass_step<N: NumberSource + Drop>(source: &mut N, reach: &mut u64, line: bool) -> bool
    requires near { reach.old < 2 ^ 63 }
    ensures further { IsTrue result → reach.new ≤ reach.old + 2 ^ 33 }
    ensures fewer { IsTrue result → N.most source.new ≤ N.most source.old }
    ensures passes { IsTrue result → (geometry_type : GeometryType) (numbers : List ℕ) (leg : Leg)
        → is_line leg ≡ line
        → Reaches geometry_type numbers (N.Leaves source.old) reach.old (step_x leg)
        → Reaches geometry_type numbers (N.Leaves source.new) reach.new
        (following geometry_type leg) }
{
    // (each way by itself: a pair that may come from all of them is packed, and unpacked again)
    match source.next_small_pair() {
        Some((x, y)) => add_step(x, y, reach, line),
        None => match source.next_short_pair() {
            Some((x, y)) => add_step(x, y, reach, line),
            None => match any_parameters(source) {
                Some((x, y)) => add_step(x, y, reach, line),
                None => false,
            },
        },
    }
}

/// The next two numbers, or None where fewer are left.
#[inline(always)]
fn any_parameters<N: NumberSource + Drop>(source: &mut N) -> Option<(u32, u32)>
    ensures pair { IfSome result (λ pair. (numbers : List ℕ) → N.Leaves source.old numbers
        → (rest : List ℕ) × (numbers ≡ pair.0 ∷ pair.1 ∷ rest) × N.Leaves source.new rest) }
    ensures fewer { IfSome result (λ _. N.most source.new ≤ N.most source.old) }
{
    let x = source.next_number()?;
    let y = source.next_number()?;
    Some((x, y))
}

/// Adds the parameters of a step. False where it is one of a LineTo and stays.
#[inline(always)]
fn add_step(x: u32, y: u32, reach: &mut u64, line: bool) -> bool
    requires { reach.old < 2 ^ 63 }
    ensures further { reach.new ≤ reach.old + 2 ^ 33 }
    ensures adds { IsTrue result → reach.new ≡ reach.old + (x + y) }
    ensures moves { IsTrue result → line ≡ true → 0 < x + y }
{
    let sum = u64::from(x) + u64::from(y);
    if stays(line, sum) {
        return false;
    }
    *reach += sum;
    true
}

/// Whether a step of a LineTo stays, by the sum of its parameters.
#[inline(always)]
fn stays(line: bool, sum: u64) -> bool
    ensures { IsFalse result → line ≡ true → 0 < sum }
{
    line && sum == 0
}
