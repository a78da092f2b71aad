//! One step of a sweep: its line goes over the next vertex.
ghost use Rattle.std.specs.Prelude.{◌≡◌, ◌<◌, IfNone, IfOk};
ghost use Rattle.mvt_sweep.specs.Calls.Chains.{AreChains, edges_of};
ghost use Rattle.mvt_sweep.specs.Calls.VertexOrder.{AddsStep, IsNextVertex, turns_here};
ghost use Rattle.mvt_sweep.specs.Work.{IsCounted};
ghost use Rattle.mvt_sweep.specs.Calls.SweepVertices.{sweep_count, previous_at};
ghost use Rattle.mvt_sweep.specs.Calls.Steps.{after_an_end, IsSweepStep, met_by};

use crate::sweep::begin::begin;
use crate::sweep::chains::Chains;
use crate::sweep::event::{end, pass};
use crate::sweep::vertices::{Pair, SweepVertices};
use mvt_plane::Count;
use mvt_status::{Split, Status};
use std::alloc::AllocError;

/// What came of a step.
#[derive(Clone, Copy)]
pub(crate) enum Step {
    /// These two edges meet wrongly.
    Meets(Pair),
    /// Both edges of the vertex began in it, in this place among the edges of the status.
    Begins(Split),
    /// An edge of the vertex ended in it.
    Ends,
}

/// Goes over a vertex, which is the next one that the line comes to.
#[inline(always)]
pub(crate) fn go_over<S: Status>(
    vertices: &SweepVertices,
    number: usize,
    chains: &mut Chains,
    status: &mut S,
    count: &mut Count,
) -> Result<Step, AllocError>
    requires number { number < sweep_count vertices.now }
    requires chains { AreChains vertices.now chains.old (S.edges status.old) }
    requires next { IsNextVertex vertices.now number (previous_at vertices.now number) number
        (edges_of chains.old (S.edges status.old)) }
    ensures step { IfOk result (IsSweepStep vertices.now number
        (edges_of chains.old (S.edges status.old)) (edges_of chains.new (S.edges status.new))) }
    ensures chains { IfOk result (λ step.
        IfNone (met_by step) (AreChains vertices.now chains.new (S.edges status.new))) }
    ensures counted { AddsStep 2 (turns_here vertices.now number) (sweep_count vertices.now)
        count.old count.new }
    ensures least { IfOk result (λ step. IsCounted 1 count.old count.new (met_by step)) }
{
    let previous = vertices.previous(number);
    let key = vertices.key(number);
    let comes_from_before = vertices.key(previous) < key;
    let goes_on = key < vertices.key(vertices.next(number));
    if comes_from_before {
        if goes_on {
            Ok(after_an_end(pass(vertices, number, previous, number, chains, status, count)))
        } else {
            Ok(after_an_end(end(vertices, number, chains, status, count)))
        }
    } else if goes_on {
        begin(vertices, number, chains, status, count)
    } else {
        Ok(after_an_end(pass(vertices, number, number, previous, chains, status, count)))
    }
}

/// The step over a vertex in which an edge ended.
fn after_an_end(found: Option<Pair>) -> Step
    ensures { result ≡ after_an_end found }
{
    match found {
        Some(pair) => Step::Meets(pair),
        None => Step::Ends,
    }
}
