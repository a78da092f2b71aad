//! Rings of four vertices that turn one way at each, as the outlines of most buildings.
ghost use Rattle.std.specs.Prelude.{◌≡◌, IsTrue, []};
ghost use Rattle.mvt_sweep.specs.Calls.Convex.{GoRound, TurnOneWay};
ghost use Rattle.mvt_sweep.specs.Calls.Pairs.{AreEnoughForAll};
ghost use Rattle.mvt_sweep.specs.Calls.SweepVertices.{sweep_count};

use crate::sweep::SweepVertices;
use mvt_plane::{Point, side};

/// Whether these are the four vertices of a ring that turns one way at each of them, so that no two
/// edges meet wrongly: both ends of an edge are on one side of the edge opposite.
pub(crate) fn are_convex_four(vertices: &SweepVertices) -> bool
    ensures enough { IsTrue result → AreEnoughForAll vertices.now [] }
    ensures four { IsTrue result → sweep_count vertices.now ≡ 4 }
{
    if vertices.len() != 4 || !go_round(vertices) {
        return false;
    }
    let a = *vertices.position(0);
    let b = *vertices.position(1);
    let c = *vertices.position(2);
    let d = *vertices.position(3);
    turn_one_way(a, b, c, d)
}

/// Whether the four vertices are those of one ring.
#[inline]
fn go_round(vertices: &SweepVertices) -> bool
    requires { sweep_count vertices.now ≡ 4 }
    ensures { IsTrue result → GoRound vertices.now }
{
    vertices.next(0) == 1 && vertices.next(1) == 2 && vertices.next(2) == 3 && vertices.next(3) == 0
}

/// Whether a ring through these positions turns one way at each.
#[inline]
fn turn_one_way(a: Point, b: Point, c: Point, d: Point) -> bool
    ensures { IsTrue result → TurnOneWay a b c d }
{
    let turn = side(a, b, c);
    if turn.is_eq() || side(b, c, d) != turn || side(c, d, a) != turn {
        return false;
    }
    side(d, a, b) == turn
}
