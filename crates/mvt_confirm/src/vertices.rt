//! The vertices of the rings that the numbers of a geometry spell (Mapbox Vector Tile Specification
//! 2.1, section 4.3.4.4).

ghost use Rattle.std.specs.Prelude.{◌≡◌, ◌<◌, ℕ, List, None, IfNone, IfSome};
ghost use Rattle.mvt_confirm.specs.Calls.Vertices.{VertexWalk, CountsDown, EndsVertices, GivesVertex, GivesPosition, RingsLeft, TakesStep};
ghost use Rattle.mvt_plane.specs.Commands.Figure.{polygon};
ghost use Rattle.mvt_plane.specs.FeatureGeometry.{type_number, HasRings};
ghost use Rattle.mvt_plane.specs.Position.{Position};
ghost use Rattle.mvt_wire.specs.Numbers.{NumbersLeft, most_left};

use crate::moves::moved_by;
use crate::numbers::next_number;
use mvt_plane::Point;
use mvt_wire::Numbers;
use std::marker::Model;

/// A vertex of a ring.
#[derive(Clone, Copy)]
pub(crate) struct Vertex {
    /// Where it is.
    pub(crate) point: Point,
    /// Whether it is the last one of its ring.
    pub(crate) is_last: bool,
}

/// A cursor over the vertices of rings, for the numbers of a geometry that are known to draw rings.
/// It gives ring after ring, and the vertices of each in order; it goes over the numbers once.
#[derive(Drop)]
pub(crate) struct Vertices<'a> {
    numbers: Numbers<'a>,
    /// Where the cursor of the commands is.
    here: Point,
    /// How many vertices of a ring come next; none in front of a ring.
    left: u32,
}

impl<'a> Model for Vertices<'a> {
    ghost Value = { VertexWalk };

    ghost view = { λ vertices.
        record { numbers = vertices.numbers; here = vertices.here; left = vertices.left } };
}

impl<'a> Vertices<'a> {
    /// In front of the first ring that the numbers draw.
    pub(crate) fn new(numbers: Numbers<'a>) -> Self
        ensures { (geometry : List ℕ) (rings : List (List Position))
            → NumbersLeft numbers.entry geometry None →
            HasRings (type_number polygon) geometry rings → RingsLeft result rings }
    {
        Vertices {
            numbers,
            here: Point::origin(),
            left: 0,
        }
    }

    /// How many vertices of the same ring come next; none in front of a ring.
    pub(crate) fn vertices_left(&self) -> u32
        ensures { result ≡ self.now.left }
    {
        self.left
    }

    /// The next vertex; None where no ring is left.
    pub(crate) fn next_vertex(&mut self) -> Option<Vertex>
        ensures vertex { IfSome result (GivesVertex self.old self.new) }
        ensures end { IfNone result (EndsVertices self.old) }
    {
        let point = if self.left == 0 {
            self.begin_ring()?
        } else {
            self.go_on()?
        };
        Some(Vertex {
            point,
            is_last: self.left == 0,
        })
    }

    /// The first vertex of the next ring: after the MoveTo that leads there, and the LineTo with
    /// how many vertices come next.
    fn begin_ring(&mut self) -> Option<Point>
        requires { self.old.left ≡ 0 }
        ensures vertex { IfSome result (GivesPosition self.old self.new) }
        ensures fewer { IfSome result (λ _.
            most_left self.new.numbers < most_left self.old.numbers) }
        ensures counts { IfSome result (λ _. CountsDown self.old self.new) }
        ensures end { IfNone result (EndsVertices self.old) }
    {
        next_number(&mut self.numbers)?;
        let first = self.step()?;
        self.left = next_number(&mut self.numbers)? / 8;
        Some(first)
    }

    /// The next vertex of the same ring; after the last one also its ClosePath.
    fn go_on(&mut self) -> Option<Point>
        requires { 0 < self.old.left }
        ensures vertex { IfSome result (GivesPosition self.old self.new) }
        ensures fewer { IfSome result (λ _.
            most_left self.new.numbers < most_left self.old.numbers) }
        ensures counts { IfSome result (λ _. CountsDown self.old self.new) }
        ensures end { IfNone result (EndsVertices self.old) }
    {
        let to = self.step()?;
        self.left -= 1;
        if self.left == 0 {
            next_number(&mut self.numbers)?;
        }
        Some(to)
    }

    /// The position to which the two parameters of a step lead.
    fn step(&mut self) -> Option<Point>
        ensures there { TakesStep self.old self.new.numbers result }
        ensures here { IfSome result (λ to. self.new.here ≡ to) }
        ensures left { self.new.left ≡ self.old.left }
        ensures fewer { IfSome result (λ _.
            most_left self.new.numbers < most_left self.old.numbers) }
    {
        let x = next_number(&mut self.numbers)?;
        let y = next_number(&mut self.numbers)?;
        let to = moved_by(self.here, x, y)?;
        self.here = to;
        Some(to)
    }
}
