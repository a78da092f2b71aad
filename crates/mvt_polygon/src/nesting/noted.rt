//! Holes that aren't where they should be, by what a sweep noted of each ring.
ghost use Rattle.std.specs.Prelude.{◌≡◌, ◌↔◌, ◌<◌, IsTrue, IfNone, IfSome, length};
ghost use Rattle.mvt_sweep.specs.Work.{AddsWork, vertex_count};
ghost use Rattle.mvt_polygon.specs.Nesting.{IsNestFault, IsFirstNestFault};
ghost use Rattle.mvt_sweep.specs.RingsAround.{nearest_at};
ghost use Rattle.mvt_sweep.specs.Rings.{rings_of, AreProperRings};
ghost use Rattle.mvt_sweep.specs.Swept.{IsNotedClear};
ghost use Rattle.mvt_polygon.specs.declared.nesting.NestFault.{NestFault};

use crate::nesting::{NestFault, fault_of_first_vertex};
use mvt_plane::{Count, Point};
use mvt_sweep::RingNotes;

/// What `check_nesting` answers of the rings of a polygon, where no two of their edges meet wrongly
/// and it is noted of each ring which other rings are around it. Of the hole that it answers, and
/// of no other, the first vertex is tested against the edges of the exterior and, where it is
/// inside, of the other holes up to the first that is around it. Each of these edges counts as a
/// probe. It takes no memory.
pub(crate) fn fault_of_holes(
    rings: &[Vec<Point>],
    notes: &RingNotes,
    count: &mut Count,
) -> Option<NestFault>
    requires proper { AreProperRings (rings_of rings.now) }
    requires noted { IsNotedClear (rings_of rings.now) notes.now }
    ensures none { IfNone result ((fault : NestFault) → ¬ IsNestFault (rings_of rings.now) fault) }
    ensures least { IfSome result (IsFirstNestFault (rings_of rings.now)) }
    ensures counted { AddsWork 0 (vertex_count (rings_of rings.now)) 0 count.old count.new }
{
    for hole in 1..rings.len() {
        if !is_right(notes, hole) {
            return fault_of_first_vertex(rings, hole, rings[hole][0], count);
        }
    }
    None
}

/// Whether the exterior, which is the first ring, and no other ring is around a hole.
fn is_right(notes: &RingNotes, hole: usize) -> bool
    requires { hole < length notes.now.around.items }
    ensures { IsTrue result ↔ ((nearest_at notes.now.around.items hole ≡ Some 0)
        × (nearest_at notes.now.around.items 0 ≡ None)) }
{
    notes.nearest(hole) == Some(0) && notes.nearest(0).is_none()
}
