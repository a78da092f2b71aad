//! The numbers that draw a figure.
ghost use Rattle.std.specs.Prelude.{◌≡◌, ◌<◌, ◌↔◌, ◌++◌, ◌∷◌, [], IfErr, IfNone, IfOk, IfSome, IsTrue, OnOk, map, ◌-ℤ◌};
ghost use Rattle.mvt_plane.specs.Commands.Figure.{AreApart, AreSteps, HasSpelling, IsCount, IsParameter, IsPath, IsStep, command_integer, cursor, path, spelling, steps, zigzag};
ghost use Rattle.mvt_plane.specs.Commands.Figure as plane;
ghost use Rattle.mvt_draw.specs.Geometry.{IsSpelled, IsSpellFault};

use crate::figure::Figure;
use mvt_plane::{CLOSE_PATH, GREATEST_COUNT, LINE_TO, MOVE_TO, Point};
use std::alloc::{AllocFailed, Global};

/// Why a figure wasn't spelled.
#[derive(Clone, Copy, Debug, PartialEq, Eq)]
pub enum SpellFault {
    /// The figure has no spelling: it is unknown or empty, a line has fewer than two positions or a
    /// ring fewer than three, two neighbours of a line or ring are equal, or a step or a count is
    /// too large.
    Unspellable,
    /// Memory was refused.
    Memory,
}

impl<T: Drop> From<AllocFailed<T>> for SpellFault {
    ghost use Rattle.mvt_draw.specs.declared.spelling.SpellFault.{SpellFault};

    ghost from_gives = { λ _ fault. fault ≡ SpellFault.Memory };

    fn from(_refused: AllocFailed<T>) -> SpellFault {
        SpellFault::Memory
    }
}

/// A step along an axis is below this, and above its negative (Mapbox Vector Tile Specification
/// 2.1, section 4.3.2).
const STEP_LIMIT: i64 = 1 << 31;

/// The one list of numbers that draws the figure (Mapbox Vector Tile Specification 2.1, section
/// 4.3): each command integer with its parameters. The cursor begins at (0, 0) and goes on from the
/// last position of each line or ring to the next one; a ClosePath doesn't move it.
///
/// Errors: `Unspellable` where the figure has no spelling; `Memory` where memory was refused. Where
/// both hold, either may come.
pub fn spell(alloc: Global, figure: &Figure) -> Result<Vec<u32>, SpellFault>
    ensures numbers { IfOk result (λ numbers. IsSpelled figure.now numbers.items) }
    ensures fault { IfErr result (IsSpellFault figure.now) }
{
    let mut numbers = Vec::new(alloc);
    match figure {
        Figure::Points(points) => spell_points(&mut numbers, points)?,
        Figure::Lines(lines) => spell_lines(&mut numbers, lines)?,
        Figure::Rings(rings) => spell_rings(&mut numbers, rings)?,
        Figure::Unknown => return Err(SpellFault::Unspellable),
    }
    Ok(numbers)
}

/// Spells points: one MoveTo through all of them.
fn spell_points(numbers: &mut Vec<u32>, positions: &[Point]) -> Result<(), SpellFault>
    ensures spelled { OnOk result (let shape = plane.points positions.now in HasSpelling shape
        × (numbers.new.items ≡ numbers.old.items ++ spelling shape)) }
    ensures fault { IfErr result (λ fault. fault ≡ SpellFault.Unspellable
        → ¬ HasSpelling (plane.points positions.now)) }
{
    if positions.is_empty() {
        return Err(SpellFault::Unspellable);
    }
    spell_command(numbers, MOVE_TO, positions.len())?;
    spell_steps(numbers, Point::origin(), positions)?;
    Ok(())
}

/// Spells lines, each from where the one before it ends.
fn spell_lines(numbers: &mut Vec<u32>, lines: &[Vec<Point>]) -> Result<(), SpellFault>
    ensures spelled { OnOk result (let shape = plane.lines (map (λ line. line.items) lines.now) in
        HasSpelling shape × (numbers.new.items ≡ numbers.old.items ++ spelling shape)) }
    ensures fault { IfErr result (λ fault. fault ≡ SpellFault.Unspellable
        → ¬ HasSpelling (plane.lines (map (λ line. line.items) lines.now))) }
{
    if lines.is_empty() {
        return Err(SpellFault::Unspellable);
    }
    let mut cursor = Point::origin();
    'walk: for line in lines {
        cursor = spell_path(numbers, 1, cursor, line)?;
    }
    Ok(())
}

/// Spells rings, each from the last position of the one before it, with a ClosePath after each.
fn spell_rings(numbers: &mut Vec<u32>, rings: &[Vec<Point>]) -> Result<(), SpellFault>
    ensures spelled { OnOk result (let shape = plane.rings (map (λ ring. ring.items) rings.now) in
        HasSpelling shape × (numbers.new.items ≡ numbers.old.items ++ spelling shape)) }
    ensures fault { IfErr result (λ fault. fault ≡ SpellFault.Unspellable
        → ¬ HasSpelling (plane.rings (map (λ ring. ring.items) rings.now))) }
{
    if rings.is_empty() {
        return Err(SpellFault::Unspellable);
    }
    let mut cursor = Point::origin();
    'walk: for ring in rings {
        cursor = spell_path(numbers, 2, cursor, ring)?;
        spell_command(numbers, CLOSE_PATH, 1)?;
    }
    Ok(())
}

/// Spells a line, or a ring without its end, that has to have so many positions after its first. Ok
/// holds its last position.
fn spell_path(
    numbers: &mut Vec<u32>,
    least: usize,
    from: Point,
    positions: &[Point],
) -> Result<Point, SpellFault>
    ensures spelled { IfOk result (λ last. IsPath least from positions.now
        × (numbers.new.items ≡ numbers.old.items ++ path from positions.now)
        × (last ≡ cursor from positions.now)) }
    ensures fault { IfErr result (λ fault. fault ≡ SpellFault.Unspellable
        → ¬ IsPath least from positions.now) }
{
    let [first, rest @ ..] = positions else {
        return Err(SpellFault::Unspellable);
    };
    if rest.len() < least || !are_apart(*first, rest) {
        return Err(SpellFault::Unspellable);
    }
    spell_command(numbers, MOVE_TO, 1)?;
    spell_step(numbers, from, *first)?;
    spell_command(numbers, LINE_TO, rest.len())?;
    spell_steps(numbers, *first, rest)
}

/// Whether no position is the same as its neighbour, from a position through others.
fn are_apart(from: Point, positions: &[Point]) -> bool
    ensures { IsTrue result ↔ AreApart from positions.now }
{
    let mut last = from;
    'walk: for &to in positions {
        if to == last {
            return false;
        }
        last = to;
    }
    true
}

/// Spells the steps from a position through others. Ok holds the last position.
fn spell_steps(
    numbers: &mut Vec<u32>,
    from: Point,
    positions: &[Point],
) -> Result<Point, SpellFault>
    ensures spelled { IfOk result (λ last. AreSteps from positions.now
        × (numbers.new.items ≡ numbers.old.items ++ steps from positions.now)
        × (last ≡ cursor from positions.now)) }
    ensures fault { IfErr result (λ fault. fault ≡ SpellFault.Unspellable
        → ¬ AreSteps from positions.now) }
{
    let mut last = from;
    'walk: for &to in positions {
        spell_step(numbers, last, to)?;
        last = to;
    }
    Ok(last)
}

/// Spells a step: the parameters of its x and its y.
fn spell_step(numbers: &mut Vec<u32>, from: Point, to: Point) -> Result<(), SpellFault>
    ensures spelled { OnOk result (IsStep from to
        × (numbers.new.items ≡ numbers.old.items ++ zigzag (to.x -ℤ from.x) ∷ zigzag
        (to.y -ℤ from.y) ∷ [])) }
    ensures fault { IfErr result (λ fault. fault ≡ SpellFault.Unspellable → ¬ IsStep from to) }
{
    let Some(x) = parameter(from.x(), to.x()) else {
        return Err(SpellFault::Unspellable);
    };
    let Some(y) = parameter(from.y(), to.y()) else {
        return Err(SpellFault::Unspellable);
    };
    numbers.push(x)?;
    numbers.push(y)?;
    Ok(())
}

/// Spells a command with a count (section 4.3.1).
fn spell_command(numbers: &mut Vec<u32>, id: u32, count: usize) -> Result<(), SpellFault>
    requires { id < 8 }
    ensures spelled { OnOk result (IsCount count
        × (numbers.new.items ≡ numbers.old.items ++ command_integer id count ∷ [])) }
    ensures fault { IfErr result (λ fault. fault ≡ SpellFault.Unspellable → ¬ IsCount count) }
{
    if count > GREATEST_COUNT as usize {
        return Err(SpellFault::Unspellable);
    }
    numbers.push(8 * count as u32 + id)?;
    Ok(())
}

/// The parameter that goes from a coordinate to another one (section 4.3.2), or None where the step
/// is too large for one.
fn parameter(from: i32, to: i32) -> Option<u32>
    ensures parameter { IfSome result (λ number. IsParameter (to -ℤ from)
        × (number ≡ zigzag (to -ℤ from))) }
    ensures none { IfNone result (¬ IsParameter (to -ℤ from)) }
{
    let step = i64::from(to) - i64::from(from);
    if step <= -STEP_LIMIT || step >= STEP_LIMIT {
        return None;
    }
    Some(zigzagged(step))
}

/// A signed number in the order 0, -1, 1, -2, 2 .. (section 4.3.2).
fn zigzagged(step: i64) -> u32
    requires { IsParameter step }
    ensures { result ≡ zigzag step }
{
    if step < 0 {
        (-2 * step - 1) as u32
    } else {
        (2 * step) as u32
    }
}
