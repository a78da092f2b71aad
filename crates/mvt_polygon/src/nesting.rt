//! Holes that aren't where they should be.
ghost use Rattle.std.specs.Prelude.{ℕ, ◌<◌, length, IfNone, IfSome};
ghost use Rattle.mvt_polygon.specs.Nesting.{IsNestFault, IsFirstNestFault, IsFirstOf, IsOfVertex};
ghost use Rattle.mvt_polygon.specs.Calls.Nesting.{IsOfHole, IsHoleAround, IsFirstHoleAround};
ghost use Rattle.mvt_sweep.specs.Rings.{rings_of};
ghost use Rattle.mvt_rules.specs.Nesting.{IsVertexOf};
ghost use Rattle.mvt_polygon.specs.declared.nesting.NestFault.{NestFault};

pub(crate) mod noted;
mod once;

use mvt_plane::{Point, inside};
pub use once::{check_nesting_once, fault_of_first_vertex};

/// A vertex of a hole that isn't where it should be.
#[derive(Clone, Copy, Debug, PartialEq, Eq)]
pub enum NestFault {
    /// The vertex isn't inside the exterior.
    Outside {
        /// The ordinal of the hole in the slice, counted from 0.
        ring: usize,
        /// The ordinal of the vertex in its ring, counted from 0.
        vertex: usize,
    },
    /// The vertex is inside another hole.
    InHole {
        /// The ordinal of the hole in the slice.
        ring: usize,
        /// The ordinal of the vertex in its ring.
        vertex: usize,
        /// The ordinal of the hole that it is in.
        other: usize,
    },
}

impl NestFault {
    ghost use Rattle.std.specs.Prelude.{◌≡◌, ◌+◌, ◌<◌, ◌^◌};
    ghost use Rattle.mvt_polygon.specs.InFeature.{AreNestRings, nest_moved};

    /// The fault of a polygon's rings, with the ordinals that they have in the feature, in which the
    /// polygon's exterior has this ordinal.
    pub fn in_feature(self, exterior: usize) -> NestFault
        requires { AreNestRings (λ ring. exterior + ring < 2 ^ 64) self }
        ensures { result ≡ nest_moved (λ ring. exterior + ring) self }
    {
        match self {
            NestFault::Outside { ring, vertex } => NestFault::Outside {
                ring: exterior + ring,
                vertex,
            },
            NestFault::InHole {
                ring,
                vertex,
                other,
            } => NestFault::InHole {
                ring: exterior + ring,
                vertex,
                other: exterior + other,
            },
        }
    }
}

/// The first vertex, by ring and then by vertex, of a polygon's holes that isn't inside the
/// exterior or is inside another hole. Where both hold, `Outside` is returned; where several other
/// holes are around it, `InHole` names the first. None where there is no such vertex (Mapbox Vector
/// Tile Specification 2.1, section 4.3.4.4). The first ring is the exterior, the others are the
/// holes. All vertices of holes are tested against all rings, so the work grows with the number of
/// their vertices times that of all vertices. It takes no memory.
pub fn check_nesting(rings: &[Vec<Point>]) -> Option<NestFault>
    ensures none { IfNone result ((fault : NestFault) → ¬ IsNestFault (rings_of rings.now) fault) }
    ensures least { IfSome result (IsFirstNestFault (rings_of rings.now)) }
{
    for ring in 1..rings.len() {
        if let Some(fault) = fault_of_hole(rings, ring) {
            return Some(fault);
        }
    }
    None
}

/// The first vertex of a hole that isn't where it should be.
fn fault_of_hole(rings: &[Vec<Point>], ring: usize) -> Option<NestFault>
    requires hole { 0 < ring }
    requires there { ring < length rings.now }
    ensures none { IfNone result ((fault : NestFault) → IsOfHole ring fault
        → ¬ IsNestFault (rings_of rings.now) fault) }
    ensures least { IfSome result (IsFirstOf (rings_of rings.now) (IsOfHole ring)) }
{
    let vertices = &rings[ring];
    for vertex in 0..vertices.len() {
        if let Some(fault) = fault_of_vertex(rings, ring, vertex, vertices[vertex]) {
            return Some(fault);
        }
    }
    None
}

/// Why a vertex of a hole isn't where it should be: it isn't inside the exterior, or else it is
/// inside another hole, of which the first is returned.
fn fault_of_vertex(
    rings: &[Vec<Point>],
    ring: usize,
    vertex: usize,
    position: Point,
) -> Option<NestFault>
    requires hole { 0 < ring }
    requires there { ring < length rings.now }
    requires here { IsVertexOf (rings_of rings.now) ring vertex position }
    ensures none { IfNone result ((fault : NestFault) → IsOfVertex ring vertex fault
        → ¬ IsNestFault (rings_of rings.now) fault) }
    ensures least { IfSome result (IsFirstOf (rings_of rings.now) (IsOfVertex ring vertex)) }
{
    if !inside(position, &rings[0]) {
        return Some(NestFault::Outside { ring, vertex });
    }
    let other = hole_around(rings, ring, position)?;
    Some(NestFault::InHole {
        ring,
        vertex,
        other,
    })
}

/// The first of the other holes that the position of a hole's vertex is inside.
fn hole_around(rings: &[Vec<Point>], ring: usize, position: Point) -> Option<usize>
    ensures none { IfNone result ((other : ℕ)
        → ¬ IsHoleAround (rings_of rings.now) ring position other) }
    ensures first { IfSome result (IsFirstHoleAround (rings_of rings.now) ring position) }
{
    for other in 1..rings.len() {
        if other != ring && inside(position, &rings[other]) {
            return Some(other);
        }
    }
    None
}
