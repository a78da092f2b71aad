//! Calls on the numbers of a geometry, whose kind is the second word.
use crate::input::{numbers, word};
use crate::stop::Stop;
use mvt_draw::{DrawFault, Figure, SpellFault, draw, spell};
use mvt_plane::{GREATEST_COORDINATE, Point};
use mvt_tile::Kind;
use std::alloc::Global;
use std::rt::Env;

/// A call on numbers.
#[derive(Clone, Copy)]
pub(crate) enum FigureCall {
    Draw,
    /// `spell` of the figure that the numbers draw.
    Spell,
    /// `spell` of two points between which there is no step.
    SpellFar,
}

impl FigureCall {
    /// The call of this name.
    pub(crate) fn named(name: &str) -> Option<FigureCall> {
        match name {
            "draw" => Some(FigureCall::Draw),
            "spell" => Some(FigureCall::Spell),
            "spell_far" => Some(FigureCall::SpellFar),
            _ => None,
        }
    }

    /// Makes the call on the numbers of a text, and prints its answer.
    pub(crate) fn run<R: Env + Print + AllocGlobal>(
        self,
        rt: &R,
        bytes: &[u8],
    ) -> Result<(), Stop> {
        let mut name = [0u8; 16];
        let mut room = [0u32; 64];
        let kind = kind_named(word(rt, 2, &mut name)?)?;
        let numbers = numbers(bytes, &mut room)?;
        match self {
            FigureCall::Draw => match draw(rt.alloc(), kind, numbers) {
                Err(DrawFault::Memory) => return Err(Stop::Refused),
                Err(fault) => println!(rt; "{fault:?}")?,
                Ok(figure) => println!(rt; "{figure:?}")?,
            },
            FigureCall::Spell => report_spelled(rt, &figure_of(rt.alloc(), kind, numbers)?)?,
            FigureCall::SpellFar => report_spelled(rt, &far_points(rt.alloc())?)?,
        }
        Ok(())
    }
}

/// Prints what `spell` answers.
fn report_spelled<R: Print + AllocGlobal>(rt: &R, figure: &Figure) -> Result<(), Stop> {
    match spell(rt.alloc(), figure) {
        Err(SpellFault::Memory) => return Err(Stop::Refused),
        Err(fault) => println!(rt; "{fault:?}")?,
        Ok(numbers) => println!(rt; "{numbers:?}")?,
    }
    Ok(())
}

/// The kind of this name.
fn kind_named(name: &str) -> Result<Kind, Stop> {
    match name {
        "point" => Ok(Kind::Point),
        "line" => Ok(Kind::LineString),
        "polygon" => Ok(Kind::Polygon),
        _ => Err(Stop::NoCall),
    }
}

/// The figure that a call is made on.
fn figure_of(alloc: Global, kind: Kind, numbers: &[u32]) -> Result<Figure, Stop> {
    match draw(alloc, kind, numbers) {
        Ok(figure) => Ok(figure),
        Err(DrawFault::Memory) => Err(Stop::NoInput),
        Err(DrawFault::Command { .. }) => Err(Stop::NoCall),
    }
}

/// Two points, at the least and at the greatest x.
fn far_points(alloc: Global) -> Result<Figure, Stop> {
    let mut points = Vec::new(alloc);
    for x in [-GREATEST_COORDINATE, GREATEST_COORDINATE] {
        let Some(point) = Point::new(x, 0) else {
            return Err(Stop::NoCall);
        };
        if points.push(point).is_err() {
            return Err(Stop::NoInput);
        }
    }
    Ok(Figure::Points(points))
}
