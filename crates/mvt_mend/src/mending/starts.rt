//! Where rings begin.
ghost use Rattle.std.specs.Prelude.{◌≡◌, IsTrue, length};

use crate::mending::old::Old;
use crate::near::edges::NO_EDGE;
use mvt_overlay::Outlines;
use mvt_plane::Point;

/// Has each ring, from this one on, that was given begin with the vertex with which it began.
/// `vertex` is how many vertices the rings before it have.
pub(super) fn restore_starts(outlines: &mut Outlines, old: Old, from: usize, vertex: usize) {
    let mut begin = vertex;
    for ring in outlines.rings.iter_mut().skip(from) {
        let after = begin.saturating_add(ring.len());
        if let Some(witnesses) = outlines.witnesses.as_mut_slice().get_mut(begin..after) {
            restore_start(ring, witnesses, old);
        }
        begin = after;
    }
}

/// The same of one ring, with the old edges that its edges come of.
fn restore_start(ring: &mut [Point], witnesses: &mut [u32], old: Old) {
    let first = witnesses.first().copied().unwrap_or(NO_EDGE);
    let Some((number, vertex)) = old.edges.place(first) else {
        return;
    };
    let Some(vertices) = old.rings.get(number) else {
        return;
    };
    if is_turned(vertices, ring, vertex) {
        ring.copy_from_slice(vertices);
        let shift = ring.len().saturating_sub(vertex).min(witnesses.len());
        witnesses.rotate_left(shift);
    }
}

/// Whether a ring has the vertices of an old one in their order, and begins with the one of this
/// number there.
fn is_turned(old: &[Point], ring: &[Point], vertex: usize) -> bool
    ensures { IsTrue result → length old.now ≡ length ring.now }
{
    if old.len() != ring.len() || vertex >= old.len() {
        return false;
    }
    let (before, after) = (&old[..vertex], &old[vertex..]);
    for (one, other) in ring.iter().zip(after.iter().chain(before)) {
        if one != other {
            return false;
        }
    }
    true
}
