//! Tests of edges that became neighbours along the line.
ghost use Rattle.std.specs.Prelude.{◌≢◌, ◌<◌, ◌≤◌, IfNone, IfSome};
ghost use Rattle.mvt_plane.specs.Counted.{ticked};
ghost use Rattle.mvt_sweep.specs.Work.{AddsWork};
ghost use Rattle.mvt_sweep.specs.Calls.SweepVertices.{IsMeetingAt, sweep_count, plan_of};
ghost use Rattle.mvt_sweep.specs.Calls.Sweep.{Tested};

use crate::sweep::vertices::{Pair, SweepVertices};
use mvt_plane::Count;

/// The wrong meeting of an edge with its neighbour, if it has a neighbour and they meet wrongly.
#[inline]
pub(crate) fn meeting_with(
    vertices: &SweepVertices,
    edge: usize,
    beside: Option<usize>,
    count: &mut Count,
) -> Option<Pair>
    requires edge { edge < sweep_count vertices.now }
    requires known { IfSome beside (λ other. (other < sweep_count vertices.now) × (other ≢ edge)) }
    ensures none { IfNone result (IfSome beside (λ other. Tested (plan_of vertices.now) edge other
        × Tested (plan_of vertices.now) other edge)) }
    ensures some { IfSome result (IsMeetingAt vertices.now) }
    ensures counted { AddsWork 1 0 0 count.old count.new }
    ensures tested { IfSome result (λ _. ticked count.old.tests ≤ count.new.tests) }
{
    vertices.meeting(edge, beside?, count)
}

/// The wrong meeting of the edges below and above a place, if both are there and they meet wrongly.
#[inline]
pub(crate) fn meeting_across(
    vertices: &SweepVertices,
    below: Option<usize>,
    above: Option<usize>,
    count: &mut Count,
) -> Option<Pair>
    requires { IfSome below (λ edge. (edge < sweep_count vertices.now)
        × IfSome above (λ other. (other < sweep_count vertices.now) × (other ≢ edge))) }
    ensures none { IfNone result (IfSome below (λ edge.
        IfSome above (λ other. Tested (plan_of vertices.now) edge other))) }
    ensures some { IfSome result (IsMeetingAt vertices.now) }
    ensures counted { AddsWork 1 0 0 count.old count.new }
    ensures tested { IfSome result (λ _. ticked count.old.tests ≤ count.new.tests) }
{
    meeting_with(vertices, below?, above, count)
}
