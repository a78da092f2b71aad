//! Edges that have no height in common.
ghost use Rattle.std.specs.Prelude.{IsTrue};
ghost use Rattle.mvt_sweep.specs.Calls.Pairs.{AreHeightsApart, AreLess};

use mvt_plane::Edge;

/// Whether all y of one of the edges are less than all of the other.
#[inline]
pub(crate) fn heights_apart(one: &Edge, other: &Edge) -> bool
    ensures { IsTrue result → AreHeightsApart one.now other.now }
{
    is_under(one, other) || is_under(other, one)
}

/// Whether all y of one edge are less than all of another.
#[inline]
fn is_under(one: &Edge, other: &Edge) -> bool
    ensures { IsTrue result → AreLess one.now.a.y one.now.b.y other.now.a.y other.now.b.y }
{
    one.a.y().max(one.b.y()) < other.a.y().min(other.b.y())
}
