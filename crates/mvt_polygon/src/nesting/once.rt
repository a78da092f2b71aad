//! Holes that aren't where they should be, by one vertex of each.
ghost use Rattle.std.specs.Prelude.{◌≡◌, ◌≤◌, ℕ, ◌↔◌, ◌*◌, ◌-◌, ◌<◌, IsTrue, IfNone, IfSome, length, take};
ghost use Rattle.mvt_plane.specs.Geometry.Inside.{IsInside};
ghost use Rattle.mvt_sweep.specs.Work.{AddsWork, vertex_count};
ghost use Rattle.mvt_sweep.specs.Meeting.{NoMeeting};
ghost use Rattle.mvt_polygon.specs.Nesting.{IsNestFault, IsFirstNestFault, IsFirstOf, IsOfVertex};
ghost use Rattle.mvt_polygon.specs.Calls.Nesting.{IsHoleAround, IsFirstHoleAround};
ghost use Rattle.mvt_sweep.specs.Rings.{rings_of, AreProperRings};
ghost use Rattle.mvt_rules.specs.Nesting.{IsVertexOf};
ghost use Rattle.mvt_polygon.specs.declared.nesting.NestFault.{NestFault};
ghost use Rattle.mvt_status.specs.Counts.{raised};

use super::NestFault;
use mvt_plane::{Count, Point, inside};

/// What `check_nesting` answers of the rings of a polygon, where no two of their edges meet
/// wrongly. Each ring is to have three vertices or more, none at the position of the next one. All
/// vertices of a hole are then inside another ring, or none is, so the first vertex of each hole
/// alone is tested against the edges of the other rings. `count` counts a probe for each of these
/// edges: for r rings of n vertices at most r * n. It takes no memory.
pub fn check_nesting_once(rings: &[Vec<Point>], count: &mut Count) -> Option<NestFault>
    requires proper { AreProperRings (rings_of rings.now) }
    requires none_meet { NoMeeting (rings_of rings.now) }
    ensures none { IfNone result ((fault : NestFault) → ¬ IsNestFault (rings_of rings.now) fault) }
    ensures least { IfSome result (IsFirstNestFault (rings_of rings.now)) }
    ensures counted { AddsWork 0 (length rings.now * vertex_count (rings_of rings.now)) 0 count.old
        count.new }
{
    for ring in 1..rings.len() {
        let position = rings[ring][0];
        if let Some(fault) = fault_of_first_vertex(rings, ring, position, count) {
            return Some(fault);
        }
    }
    None
}

/// Why the first vertex of a hole isn't where it should be: it isn't inside the exterior, or else
/// it is inside another hole, of which the first is returned. `position` is that of the vertex, and
/// `ring` the ordinal of the hole. Ticks a probe for each edge of the exterior at least, and one for
/// each edge of the rings at most. It takes no memory.
pub fn fault_of_first_vertex(
    rings: &[Vec<Point>],
    ring: usize,
    position: Point,
    count: &mut Count,
) -> Option<NestFault>
    requires hole { 0 < ring }
    requires there { ring < length rings.now }
    requires here { IsVertexOf (rings_of rings.now) ring 0 position }
    ensures none { IfNone result ((fault : NestFault) → IsOfVertex ring 0 fault
        → ¬ IsNestFault (rings_of rings.now) fault) }
    ensures least { IfSome result (IsFirstOf (rings_of rings.now) (IsOfVertex ring 0)) }
    ensures counted { AddsWork 0 (vertex_count (rings_of rings.now)) 0 count.old count.new }
    ensures probed { raised (vertex_count (take 1 (rings_of rings.now))) count.old.probes
        ≤ count.new.probes }
{
    if !inside_counted(position, &rings[0], count) {
        return Some(NestFault::Outside { ring, vertex: 0 });
    }
    let other = hole_around(rings, ring, position, count)?;
    Some(NestFault::InHole {
        ring,
        vertex: 0,
        other,
    })
}

/// The first of the other holes that the position of a hole's vertex is inside.
fn hole_around(
    rings: &[Vec<Point>],
    ring: usize,
    position: Point,
    count: &mut Count,
) -> Option<usize>
    ensures none { IfNone result ((other : ℕ)
        → ¬ IsHoleAround (rings_of rings.now) ring position other) }
    ensures first { IfSome result (IsFirstHoleAround (rings_of rings.now) ring position) }
    ensures counted { let rings = rings_of rings.now in
        AddsWork 0 (vertex_count rings - vertex_count (take 1 rings)) 0 count.old count.new }
{
    for other in 1..rings.len() {
        if other != ring && inside_counted(position, &rings[other], count) {
            return Some(other);
        }
    }
    None
}

/// Whether the position is inside the ring, with a probe for each edge of it: `inside` holds the
/// position against each of them once.
fn inside_counted(position: Point, ring: &[Point], count: &mut Count) -> bool
    ensures inside { IsTrue result ↔ IsInside position ring.now }
    ensures counted { AddsWork 0 (length ring.now) 0 count.old count.new }
    ensures probed { count.new.probes ≡ raised (length ring.now) count.old.probes }
{
    count.tick_probes(ring.len() as u64);
    inside(position, ring)
}
