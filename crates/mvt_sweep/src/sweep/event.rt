//! What happens where the line of a sweep comes to a vertex: one edge of the vertex goes over into
//! the other, or both end.
ghost use Rattle.std.specs.Prelude.{◌<◌, ◌≤◌, ◌*◌, IfNone, IfSome, drop, length, take};
ghost use Rattle.mvt_plane.specs.Counted.{ticked};
ghost use Rattle.mvt_sweep.specs.Calls.Chains.{AreChains, edges_of};
ghost use Rattle.mvt_sweep.specs.Calls.VertexOrder.{AddsStep, IsNextVertex, IsSweptOver};
ghost use Rattle.mvt_sweep.specs.Work.{AddsWork, IsCounted};
ghost use Rattle.mvt_sweep.specs.Calls.SweepVertices.{IsMeetingAt, sweep_count, plan_of, position_at, previous_at};
ghost use Rattle.mvt_sweep.specs.Calls.Sweep.{BothEnd, IsCut, PassesOn};
ghost use Rattle.mvt_status.specs.Counts.{bits};

use crate::sweep::chains::Chains;
use crate::sweep::neighbors::{meeting_across, meeting_with};
use crate::sweep::place::place_of;
use crate::sweep::vertices::{Pair, SweepVertices};
use mvt_plane::Count;
use mvt_status::Status;

/// One edge of the vertex ends in it, and the other begins: the chain goes on with that one. The
/// status stays as it is; the contract alone speaks of it. Ticks a probe, though no edge is compared
/// with the vertex: its keys say which one ends.
#[inline(always)]
pub(crate) fn pass<S: Status>(
    vertices: &SweepVertices,
    number: usize,
    ending: usize,
    beginning: usize,
    chains: &mut Chains,
    status: &S,
    count: &mut Count,
) -> Option<Pair>
    requires number { number < sweep_count vertices.now }
    requires chains { AreChains vertices.now chains.old (S.edges status.now) }
    requires next { IsNextVertex vertices.now number ending beginning
        (edges_of chains.old (S.edges status.now)) }
    requires passes { PassesOn (plan_of vertices.now) (position_at vertices.now number) ending
        beginning }
    ensures none { IfNone result (IsSweptOver vertices.now number
        (edges_of chains.new (S.edges status.now))
        × AreChains vertices.now chains.new (S.edges status.now)) }
    ensures some { IfSome result (IsMeetingAt vertices.now) }
    ensures counted { AddsWork 2 1 0 count.old count.new }
    ensures least { IsCounted 1 count.old count.new result }
{
    count.tick_probe();
    let chain = chains.twin(ending);
    if let Some(pair) = meeting_with(vertices, beginning, chains.edge_below(chain), count) {
        return Some(pair);
    }
    if let Some(pair) = meeting_with(vertices, beginning, chains.edge_above(chain), count) {
        return Some(pair);
    }
    chains.go_on(chain, beginning);
    None
}

/// Both edges of the vertex end in it, and so do their chains.
pub(crate) fn end<S: Status>(
    vertices: &SweepVertices,
    number: usize,
    chains: &mut Chains,
    status: &mut S,
    count: &mut Count,
) -> Option<Pair>
    requires number { number < sweep_count vertices.now }
    requires chains { AreChains vertices.now chains.old (S.edges status.old) }
    requires next { IsNextVertex vertices.now number (previous_at vertices.now number) number
        (edges_of chains.old (S.edges status.old)) }
    requires ends { BothEnd (plan_of vertices.now) (position_at vertices.now number)
        (previous_at vertices.now number) number }
    ensures none { IfNone result (IsSweptOver vertices.now number
        (edges_of chains.new (S.edges status.new))
        × AreChains vertices.now chains.new (S.edges status.new)) }
    ensures some { IfSome result (IsMeetingAt vertices.now) }
    ensures counted { AddsStep 1 1 (sweep_count vertices.now) count.old count.new }
    ensures least { IsCounted 1 count.old count.new result }
{
    let point = end_point(vertices, number, chains, status, count);
    let (lower, upper) = status.remove_two(point, count);
    let below = chains.edge_below(lower);
    let above = chains.edge_above(upper);
    chains.end_two(lower, upper);
    meeting_across(vertices, below, above, count)
}

/// How many chains are below the two that end in a vertex. Where one of these is the lowest or the
/// highest of all, no search is needed: this ticks a probe, though only the numbers of chains are
/// compared.
fn end_point<S: Status>(
    vertices: &SweepVertices,
    number: usize,
    chains: &Chains,
    status: &S,
    count: &mut Count,
) -> usize
    requires number { number < sweep_count vertices.now }
    requires chains { AreChains vertices.now chains.now (S.edges status.now) }
    requires next { IsNextVertex vertices.now number (previous_at vertices.now number) number
        (edges_of chains.now (S.edges status.now)) }
    requires ends { BothEnd (plan_of vertices.now) (position_at vertices.now number)
        (previous_at vertices.now number) number }
    ensures within { result ≤ length (S.edges status.now) }
    ensures cut { IsCut (plan_of vertices.now) (position_at vertices.now number)
        (edges_of chains.now (S.edges status.now))
        (take result (edges_of chains.now (S.edges status.now)))
        (drop result (edges_of chains.now (S.edges status.now))) }
    ensures counted { AddsWork 0 (2 * bits (sweep_count vertices.now))
        (6 * bits (sweep_count vertices.now)) count.old count.new }
    ensures probed { ticked count.old.probes ≤ count.new.probes }
{
    if let Some(point) = end_point_outside(vertices, number, chains, status) {
        count.tick_probes(1);
        return point;
    }
    place_of(vertices, number, chains, status, count).point
}

/// The same, if one of the two chains is the lowest or the highest of all.
#[inline]
fn end_point_outside<S: Status>(
    vertices: &SweepVertices,
    number: usize,
    chains: &Chains,
    status: &S,
) -> Option<usize>
    requires number { number < sweep_count vertices.now }
    requires chains { AreChains vertices.now chains.now (S.edges status.now) }
    requires next { IsNextVertex vertices.now number (previous_at vertices.now number) number
        (edges_of chains.now (S.edges status.now)) }
    requires ends { BothEnd (plan_of vertices.now) (position_at vertices.now number)
        (previous_at vertices.now number) number }
    ensures within { IfSome result (λ point. point ≤ length (S.edges status.now)) }
    ensures cut { IfSome result (λ point. IsCut (plan_of vertices.now)
        (position_at vertices.now number) (edges_of chains.now (S.edges status.now))
        (take point (edges_of chains.now (S.edges status.now)))
        (drop point (edges_of chains.now (S.edges status.now)))) }
{
    let one = chains.twin(vertices.previous(number));
    let other = chains.twin(number);
    let lowest = chains.lowest();
    let highest = chains.highest();
    if one == lowest || other == lowest {
        Some(0)
    } else if one == highest || other == highest {
        Some(status.len() - 2)
    } else {
        None
    }
}
