//! Generated rings: in each way a meeting is found exactly where a check of all pairs of edges finds
//! one.
ghost use Rattle.std.specs.Prelude.{◌<◌, length};

use super::{WAYS, found_in};
use crate::dice::Dice;
use crate::rings::ring_at;
use mvt_plane::{Count, Edge, Point, common};
use mvt_sweep::{are_proper, self_intersection};
use std::alloc::Global;
use std::process::Abort;

/// The number after this one, going round: after the last one comes 0.
fn next_round(count: usize, number: usize) -> usize
    requires { number < count }
    ensures { result < count }
{
    if number + 1 == count { 0 } else { number + 1 }
}

/// The vertex that two edges of a ring share as neighbours.
fn shared(ring: &[Point], first: usize, second: usize) -> Option<Point>
    requires first { first < length ring.now }
    requires second { second < length ring.now }
{
    if next_round(ring.len(), first) == second {
        return Some(ring[second]);
    }
    if next_round(ring.len(), second) == first {
        return Some(ring[first]);
    }
    None
}

/// The edge of a ring that begins in this vertex.
fn edge_from(ring: &[Point], vertex: usize) -> Edge
    requires { vertex < length ring.now }
{
    Edge {
        a: ring[vertex],
        b: ring[next_round(ring.len(), vertex)],
    }
}

/// Whether an edge of a ring meets one before it wrongly.
fn meets_before(ring: &[Point], second: usize) -> bool
    requires { second < length ring.now }
{
    for first in 0..second {
        let shared = shared(ring, first, second);
        let one = edge_from(ring, first);
        let other = edge_from(ring, second);
        if common(one, other, shared, &mut Count::new()).is_some() {
            return true;
        }
    }
    false
}

/// Whether any two edges of a ring meet wrongly.
fn meets_plainly(ring: &[Point]) -> bool {
    for second in 0..ring.len() {
        if meets_before(ring, second) {
            return true;
        }
    }
    false
}

/// A vertex at this step from left to right, above the others of its side or below them; where
/// `reach` is 1 it is right of the one before it.
fn thrown_vertex(dice: &mut Dice, step: i32, side: i32, reach: i32) -> (i32, i32) {
    let x = step
        .wrapping_mul(8)
        .wrapping_add(dice.throw().wrapping_mul(reach));
    (x, dice.throw().wrapping_add(1).wrapping_mul(side))
}

/// A ring with a lower side of so many steps from left to right, and an upper one back.
fn thrown_ring(rt: &impl Abort, alloc: Global, dice: &mut Dice, steps: i32) -> Vec<Point> {
    let reach = if dice.throw() < 4 { 1 } else { 2 };
    let mut vertices = Vec::new(alloc);
    for step in 0..steps {
        vertices
            .push(thrown_vertex(dice, step, -1, reach))
            .expect(rt, "memory");
    }
    for step in (0..steps).rev() {
        vertices
            .push(thrown_vertex(dice, step, 1, reach))
            .expect(rt, "memory");
    }
    ring_at(rt, alloc, &vertices)
}

/// In how many of 200 generated rings edges meet. Those of which two neighbours are at one position
/// are left out.
fn meeting_rings(rt: &impl Abort, alloc: Global) -> u32 {
    let mut dice = Dice::new();
    let mut meeting = 0_u32;
    for _ring in 0..200 {
        let steps = dice.throw().wrapping_mul(4).wrapping_add(12);
        let rings = vec![in alloc; thrown_ring(rt, alloc, &mut dice, steps)].expect(rt, "memory");
        if !are_proper(&rings) {
            continue;
        }
        let meets = meets_plainly(&rings[0]);
        for way in WAYS {
            assert!(rt; found_in(rt, alloc, &rings, way).0.is_some() == meets);
        }
        if meets {
            meeting = meeting.wrapping_add(1);
        }
    }
    meeting
}

// Some meet, and some don't.
#[test]
fn generated_rings(rt: HostRuntime) {
    let meeting = meeting_rings(&rt, rt.alloc());
    assert!(rt; 20 < meeting && meeting < 180);
}

/// Whether `self_intersection` finds a meeting in a ring, after it was seen that it does so exactly
/// where two edges meet. None where two neighbours are at one position.
fn meets_in_ring(rt: &impl Abort, alloc: Global, ring: Vec<Point>) -> Option<bool> {
    let rings = vec![in alloc; ring].expect(rt, "memory");
    if rings.len() != 1 || !are_proper(&rings) {
        return None;
    }
    let found = self_intersection(alloc, &rings, &mut Count::new()).expect(rt, "memory");
    assert!(rt; found.is_some() == meets_plainly(&rings[0]));
    Some(found.is_some())
}

// Rings of 10 to 72 edges, of which up to 40 are checked in another way than more.
#[test]
fn generated_rings_of_each_size(rt: HostRuntime) {
    let mut dice = Dice::new();
    let (mut meeting, mut clear) = (0_u32, 0_u32);
    for ring in 0..256_i32 {
        let ring = thrown_ring(&rt, rt.alloc(), &mut dice, ring / 8 + 5);
        match meets_in_ring(&rt, rt.alloc(), ring) {
            Some(true) => meeting = meeting.wrapping_add(1),
            Some(false) => clear = clear.wrapping_add(1),
            None => {}
        }
    }
    assert!(rt; 20 < meeting && 20 < clear);
}

/// The position of a number in a square of three by three.
fn in_square(number: i32) -> (i32, i32) {
    (number % 3, number / 3 % 3)
}

// All rings of four vertices in that square, no two neighbours at one position: by a count of another
// program no edges meet in 1,136 of 4,104.
#[test]
fn all_rings_of_four(rt: HostRuntime) {
    let (mut meeting, mut clear) = (0_u32, 0_u32);
    for number in 0..6561_i32 {
        let [first, second, third] = [number / 9, number / 81, number / 729];
        let vertices = [number, first, second, third].map(in_square);
        match meets_in_ring(&rt, rt.alloc(), ring_at(&rt, rt.alloc(), &vertices)) {
            Some(true) => meeting = meeting.wrapping_add(1),
            Some(false) => clear = clear.wrapping_add(1),
            None => {}
        }
    }
    assert_eq!(rt; (meeting, clear), (2968, 1136));
}
