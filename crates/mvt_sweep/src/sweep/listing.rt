//! The list of the vertices of rings.
ghost use Rattle.std.specs.Prelude.{◌≡◌, ◌<◌, ◌≤◌, ◌^◌, IfOk, IfSome, OnOk, suc, [], length, take};
ghost use Rattle.mvt_sweep.specs.Calls.Links.{AreLinked};
ghost use Rattle.mvt_sweep.specs.Calls.SweepVertices.{IsListOf, far_end_of};
ghost use Rattle.mvt_sweep.specs.Work.{vertex_count};
ghost use Rattle.mvt_sweep.specs.Rings.{rings_of, AreProperRings};

use crate::sweep::vertex::SweepVertex;
use arrayvec::ArrayVec;
use mvt_plane::{GREATEST_COORDINATE, Point};
use std::alloc::{AllocError, Global};

/// The most vertices that are listed with no memory from the heap. (Of more edges there are too many
/// pairs.)
pub(crate) const FEW_VERTICES: usize = 40;

/// A list of so few.
pub(crate) type FewVertices = ArrayVec<SweepVertex, FEW_VERTICES>;

/// All vertices of rings, ring by ring. The only error is that memory was refused, or that a `u32`
/// is too small for their number.
pub(crate) fn list_of(alloc: Global, rings: &[Vec<Point>]) -> Result<Vec<SweepVertex>, AllocError>
    requires { AreProperRings (rings_of rings.now) }
    ensures list { IfOk result (λ list. IsListOf (rings_of rings.now) list.items) }
    ensures linked { IfOk result (λ list. AreLinked list.items) }
    ensures few { IfOk result (λ list. length list.items < 2 ^ 32) }
{
    let count = count_of(rings).ok_or(AllocError)?;
    let mut list = Vec::with_capacity(alloc, count)?;
    for ring in 0..rings.len() {
        add_vertices(&mut list, rings, ring)?;
    }
    Ok(list)
}

/// Lists the vertices of the only ring, of which there are few. (An answer would be copied.)
pub(crate) fn list_few(rings: &[Vec<Point>], list: &mut FewVertices)
    requires proper { AreProperRings (rings_of rings.now) }
    requires one { length rings.now ≡ 1 }
    requires few { vertex_count (rings_of rings.now) ≤ 40 }
    requires empty { list.old.items ≡ [] }
    ensures list { IsListOf (rings_of rings.now) list.new.items }
    ensures linked { AreLinked list.new.items }
{
    let ring = &rings[0];
    for edge in 0..ring.len() {
        let position = ring[edge];
        // (all positions are in range)
        prove!(position.x() <= GREATEST_COORDINATE);
        list.push(SweepVertex {
            position,
            far_end: far_end_of(ring.len(), edge) as u32,
        });
    }
}

/// How many vertices rings have, or None where a `u32` is too small for their number.
pub(super) fn count_of(rings: &[Vec<Point>]) -> Option<usize>
    ensures value { IfSome result (λ count. count ≡ vertex_count (rings_of rings.now)) }
    ensures few { IfSome result (λ count. count < 2 ^ 32) }
{
    let mut count: usize = 0;
    for ring in 0..rings.len() {
        count = count.checked_add(rings[ring].len())?;
    }
    if count > u32::MAX as usize {
        return None;
    }
    Some(count)
}

/// Adds the vertices of the ring of this number after those of the rings before it.
fn add_vertices(
    list: &mut Vec<SweepVertex>,
    rings: &[Vec<Point>],
    ring: usize,
) -> Result<(), AllocError>
    requires ring { ring < length rings.now }
    requires before { IsListOf (take ring (rings_of rings.now)) list.old.items }
    requires count { vertex_count (rings_of rings.now) < 2 ^ 32 }
    ensures { OnOk result (IsListOf (take (suc ring) (rings_of rings.now)) list.new.items) }
{
    let vertices = &rings[ring];
    let before = list.len();
    for edge in 0..vertices.len() {
        let position = vertices[edge];
        // (all positions are in range)
        prove!(position.x() <= GREATEST_COORDINATE);
        list.push(SweepVertex {
            position,
            far_end: (before + far_end_of(vertices.len(), edge)) as u32,
        })?;
    }
    Ok(())
}

/// In a ring of so many vertices: the number of the last vertex for the first one, that of the
/// first for the last one, and its own for every other vertex.
fn far_end_of(count: usize, number: usize) -> usize
    requires { number < count }
    ensures value { result ≡ far_end_of count number }
    ensures within { result < count }
{
    if number == 0 {
        count - 1
    } else if number + 1 == count {
        0
    } else {
        number
    }
}
