//! What happens where the line of a sweep comes to a vertex in which both of its edges begin.
ghost use Rattle.std.specs.Prelude.{◌≡◌, ◌<◌, ◌≤◌, ◌⊎◌, IfNone, IfOk, IfSome, pos};
ghost use Rattle.std.specs.Ordering.{int_cmp};
ghost use Rattle.mvt_plane.specs.Counted.{ticked};
ghost use Rattle.mvt_sweep.specs.Calls.Chains.{AreChains, edge_in, edges_of, outside_of};
ghost use Rattle.mvt_sweep.specs.Calls.VertexOrder.{AddsStep, IsNextVertex};
ghost use Rattle.mvt_sweep.specs.Work.{AddsWork, IsCounted};
ghost use Rattle.mvt_sweep.specs.Calls.SweepVertices.{IsMeetingAt, sweep_count, plan_of, position_at, previous_at, turn_at};
ghost use Rattle.mvt_sweep.specs.Calls.Steps.{IsSweepStep, met_by};
ghost use Rattle.mvt_sweep.specs.Calls.Sweep.{BeginThere, BothBegin, Tested};

use crate::sweep::chains::Chains;
use crate::sweep::neighbors::meeting_with;
use crate::sweep::place::place_from_outside;
use crate::sweep::step::Step;
use crate::sweep::vertices::{Pair, SweepVertices};
use mvt_plane::{Count, side};
use mvt_status::{Split, Status};
use std::alloc::AllocError;
use std::cmp::Ordering;

/// Both edges of the vertex begin in it.
pub(crate) fn begin<S: Status>(
    vertices: &SweepVertices,
    number: usize,
    chains: &mut Chains,
    status: &mut S,
    count: &mut Count,
) -> Result<Step, AllocError>
    requires number { number < sweep_count vertices.now }
    requires chains { AreChains vertices.now chains.old (S.edges status.old) }
    requires next { IsNextVertex vertices.now number (previous_at vertices.now number) number
        (edges_of chains.old (S.edges status.old)) }
    requires begin { BeginThere (plan_of vertices.now) (position_at vertices.now number)
        (previous_at vertices.now number) number }
    ensures step { IfOk result (IsSweepStep vertices.now number
        (edges_of chains.old (S.edges status.old)) (edges_of chains.new (S.edges status.new))) }
    ensures chains { IfOk result (λ step.
        IfNone (met_by step) (AreChains vertices.now chains.new (S.edges status.new))) }
    ensures counted { AddsStep 2 1 (sweep_count vertices.now) count.old count.new }
    ensures least { IfOk result (λ step. IsCounted 1 count.old count.new (met_by step)) }
{
    let turn = turn(vertices, number, count);
    if let Some(pair) = meeting_of_both(vertices, number, turn, count) {
        return Ok(Step::Meets(pair));
    }
    let (lower, upper) = in_order(vertices, number, turn);
    let place = place_from_outside(vertices, number, chains, status, count);
    let edges = with_edges(chains, place);
    if let Some(pair) = meeting_with(vertices, lower, edges.front, count) {
        return Ok(Step::Meets(pair));
    }
    if let Some(pair) = meeting_with(vertices, upper, edges.following, count) {
        return Ok(Step::Meets(pair));
    }
    status.insert_two(place.point, lower, upper, count)?;
    chains.begin_two(place.front.unwrap_or(chains.outside()), lower, upper);
    Ok(Step::Begins(edges))
}

/// A place among chains as one among their edges.
fn with_edges(chains: &Chains, place: Split) -> Split
    requires front { IfSome place.front (λ chain. chain < outside_of chains.now) }
    requires following { IfSome place.following (λ chain. chain < outside_of chains.now) }
    ensures point { result.point ≡ place.point }
    ensures front { result.front ≡ edge_in chains.now place.front }
    ensures following { result.following ≡ edge_in chains.now place.following }
{
    Split {
        point: place.point,
        front: match place.front {
            Some(chain) => Some(chains.twin(chain)),
            None => None,
        },
        following: match place.following {
            Some(chain) => Some(chains.twin(chain)),
            None => None,
        },
    }
}

/// How the ring turns in a vertex, compared with 0: Equal where its two edges are along one line.
/// Ticks a probe.
fn turn(vertices: &SweepVertices, number: usize, count: &mut Count) -> Ordering
    requires number { number < sweep_count vertices.now }
    ensures turn { result ≡ int_cmp (turn_at vertices.now number) (pos 0) }
    ensures counted { AddsWork 0 1 0 count.old count.new }
    ensures probed { count.new.probes ≡ ticked count.old.probes }
{
    let position = *vertices.position(number);
    let before = *vertices.position(vertices.previous(number));
    let following = *vertices.position(vertices.next(number));
    count.tick_probe();
    side(position, before, following)
}

/// The wrong meeting of the two edges that begin in a vertex, if they have one. Only along one line
/// they need a test. They go one way then, so it finds one.
fn meeting_of_both(
    vertices: &SweepVertices,
    number: usize,
    turn: Ordering,
    count: &mut Count,
) -> Option<Pair>
    requires number { number < sweep_count vertices.now }
    requires turn { turn ≡ int_cmp (turn_at vertices.now number) (pos 0) }
    requires begin { BeginThere (plan_of vertices.now) (position_at vertices.now number)
        (previous_at vertices.now number) number }
    ensures none { IfNone result (Tested (plan_of vertices.now) (previous_at vertices.now number)
        number × Tested (plan_of vertices.now) number (previous_at vertices.now number)) }
    ensures some { IfSome result (IsMeetingAt vertices.now) }
    ensures counted { AddsWork 1 0 0 count.old count.new }
    ensures tested { IfSome result (λ _. ticked count.old.tests ≤ count.new.tests) }
    ensures untested { IfNone result (count.new ≡ count.old) }
{
    if turn.is_ne() {
        return None;
    }
    vertices.meeting(vertices.previous(number), number, count)
}

/// The two edges that begin in a vertex, the lower one first. They don't meet wrongly, so they
/// don't go one way.
fn in_order(vertices: &SweepVertices, number: usize, turn: Ordering) -> (usize, usize)
    requires number { number < sweep_count vertices.now }
    requires turn { turn ≡ int_cmp (turn_at vertices.now number) (pos 0) }
    requires begin { BeginThere (plan_of vertices.now) (position_at vertices.now number)
        (previous_at vertices.now number) number }
    requires tested { Tested (plan_of vertices.now) (previous_at vertices.now number) number }
    ensures pair { (result ≡ (previous_at vertices.now number, number))
        ⊎ (result ≡ (number, previous_at vertices.now number)) }
    ensures begin { BothBegin (plan_of vertices.now) (position_at vertices.now number) result.0
        result.1 }
{
    let previous = vertices.previous(number);
    if turn.is_gt() {
        (previous, number)
    } else {
        (number, previous)
    }
}
