//! Lists for the rings of one geometry after another, which keep their memory.
ghost use Rattle.std.specs.Prelude.{◌≡◌, ◌+◌, ◌^◌, ◌<◌, ◌≤◌, ◌∷◌, ◌++◌, ℕ, Bool, true, IfErr, List, [], OnOk, drop, length, map, take};
ghost use Rattle.mvt_draw.specs.Calls.Cursor.{position_of, course_of};
ghost use Rattle.mvt_draw.specs.Geometry.{IsDrawFault};
ghost use Rattle.mvt_draw.specs.Calls.Geometry.{IsFaultAhead};
ghost use Rattle.mvt_draw.specs.Calls.Given.{IsGivenAt};
ghost use Rattle.mvt_plane.specs.Commands.Course.{IsPathAhead, ending_of};
ghost use Rattle.mvt_plane.specs.Commands.Drawing.{path_command};
ghost use Rattle.mvt_plane.specs.Commands.Figure.{polygon};
ghost use Rattle.mvt_plane.specs.Commands.Figure as plane;
ghost use Rattle.mvt_plane.specs.FeatureGeometry.{HasRings};
ghost use Rattle.mvt_plane.specs.Position.{Position};
ghost use Rattle.mvt_plane.specs.Calls.Reading.{StandsAt};

use crate::commands::Cursor;
use crate::drawing::DrawFault;
use crate::reading::read_path;
use mvt_fault::CommandCode;
use mvt_plane::Point;
use mvt_wire::NumberSource;
use std::alloc::Global;
use std::marker::Model;

/// The list of a ring keeps room for as many vertices more than it has.
const MOST_SPARE: usize = 32;

/// The rings of one polygon geometry at a time. It serves one feature after another: the memory
/// that one took is used again for the next.
#[derive(Drop)]
pub struct RingBuffer {
    /// The first of these are the rings; the others are room.
    parts: Vec<Vec<Point>>,
    /// How many rings there are.
    count: usize,
}

impl Model for RingBuffer {
    ghost Value = { List (List Position) };

    ghost view = { λ buffer. map (λ ring. ring.items) (take buffer.count buffer.parts.items) };

    ghost invariant = { λ buffer. buffer.count ≤ length buffer.parts.items };
}

impl RingBuffer {
    /// No rings. It takes no memory.
    pub fn new(alloc: Global) -> RingBuffer
        ensures { result ≡ [] }
    {
        RingBuffer {
            parts: Vec::new(alloc),
            count: 0,
        }
    }

    /// The rings that were drawn last, in the order of drawing: positions in the coordinates of the
    /// tile, at least three to a ring; the last position is joined to the first.
    pub fn rings(&self) -> &[Vec<Point>]
        ensures { map (λ ring. ring.items) result.now ≡ self.now }
    {
        &self.parts[..self.count]
    }

    /// Draws the rings of a polygon's geometry (Mapbox Vector Tile Specification 2.1, section
    /// 4.3.4.4) in place of those that were here. Nothing is reserved by a count that was read.
    ///
    /// Errors: `Command` with what keeps the numbers from drawing rings; `Memory` where the rings
    /// found no memory. After an error nothing is said of the rings that are here; the buffer may
    /// be drawn into again.
    pub fn draw<N: NumberSource + Drop>(
        &mut self,
        alloc: Global,
        mut numbers: N,
    ) -> Result<(), DrawFault>
        requires few { N.most numbers < 2 ^ 64 }
        ensures rings { OnOk result ((given : List ℕ) → N.Leaves numbers given
            → HasRings 3 given self.new) }
        ensures fault { IfErr result (λ fault. (given : List ℕ) → N.Leaves numbers given
            → IsDrawFault 3 given fault) }
    {
        self.draw_rings(alloc, &mut numbers)
    }

    /// The same from a source that stays.
    #[inline(always)]
    fn draw_rings<N: NumberSource + Drop>(
        &mut self,
        alloc: Global,
        numbers: &mut N,
    ) -> Result<(), DrawFault>
        requires few { N.most numbers.old < 2 ^ 64 }
        ensures rings { OnOk result ((given : List ℕ) → N.Leaves numbers.old given
            → HasRings 3 given self.new) }
        ensures fault { IfErr result (λ fault. (given : List ℕ) → N.Leaves numbers.old given
            → IsDrawFault 3 given fault) }
    {
        self.count = 0;
        let Some(mut first) = numbers.next_number() else {
            return Err((CommandCode::Unfinished, 0).into());
        };
        let mut cursor = Cursor::ORIGIN;
        'rings: loop {
            self.draw_ring(alloc, first, numbers, &mut cursor)?;
            match numbers.next_number() {
                Some(number) => first = number,
                None => return Ok(()),
            }
        }
    }

    /// Draws one more ring. Its first number, at the cursor, was read before.
    fn draw_ring<N: NumberSource + Drop>(
        &mut self,
        alloc: Global,
        first: u32,
        source: &mut N,
        cursor: &mut Cursor,
    ) -> Result<(), DrawFault>
        requires few { cursor.old.at + 1 + N.most source.old < 2 ^ 64 }
        ensures forward { OnOk result (cursor.old.at < cursor.new.at) }
        ensures fewer { OnOk result (cursor.new.at + N.most source.new
            ≤ cursor.old.at + 1 + N.most source.old) }
        ensures left { OnOk result ((numbers : List ℕ)
            → IsGivenAt (N.Leaves source.old) numbers cursor.old.at first
            → N.Leaves source.new (drop cursor.new.at numbers)) }
        ensures goes { OnOk result ((numbers : List ℕ)
            → IsGivenAt (N.Leaves source.old) numbers cursor.old.at first
            → (drawn : Bool) → StandsAt polygon numbers cursor.old.at
            (path_command drawn (position_of cursor.old))
            → StandsAt polygon numbers cursor.new.at (path_command true (position_of cursor.new))) }
        ensures drawn { OnOk result ((numbers : List ℕ)
            → IsGivenAt (N.Leaves source.old) numbers cursor.old.at first
            → (ring : List Position) (rest : List ℕ)
            → IsPathAhead (course_of numbers cursor.old) ring (ending_of true ++ rest)
            → (self.new ≡ self.old ++ ring ∷ [])
            × (course_of numbers cursor.new
            ≡ record { here = plane.cursor (position_of cursor.old) ring; left = rest })) }
        ensures fault { IfErr result (λ stop. (numbers : List ℕ)
            → IsGivenAt (N.Leaves source.old) numbers cursor.old.at first
            → (drawn : Bool) → StandsAt polygon numbers cursor.old.at
            (path_command drawn (position_of cursor.old)) → IsFaultAhead polygon numbers stop) }
    {
        if self.count == self.parts.len() {
            let room = Vec::with_capacity(alloc, room_after(&self.parts))?;
            self.parts.push(room)?;
        }
        let ring = &mut self.parts[self.count];
        ring.clear();
        read_path(ring, first, source, cursor, true)?;
        give_back(ring, self.count);
        self.count += 1;
        Ok(())
    }
}

/// For how many vertices the list of a new ring has room at first, after those of the rings before
/// it: as many as the last one has, since rings of one feature are often alike, but three at least
/// and 16 at most. The first list serves the first ring of each feature, so it begins with 16.
fn room_after(rings: &[Vec<Point>]) -> usize
    ensures least { 3 ≤ result }
    ensures most { result ≤ 16 }
{
    match rings.last() {
        Some(ring) => ring.len().clamp(3, 16),
        None => 16,
    }
}

/// Gives room back that the list of a ring with an ordinal doesn't need, where it is much: lists
/// grow to twice their size. The first list keeps its room, for the first rings of later features.
fn give_back(vertices: &mut Vec<Point>, ring: usize)
    ensures { vertices.new.items ≡ vertices.old.items }
{
    if ring > 0 && vertices.len() + MOST_SPARE < vertices.capacity() {
        vertices.shrink_to_fit();
    }
}
