//! The place of a vertex among the chains that the line of a sweep meets.
ghost use Rattle.std.specs.Prelude.{◌↔◌, ◌*◌, ◌<◌, ◌≤◌, IfSome, IsTrue, List, ℕ, drop, length, take};
ghost use Rattle.mvt_plane.specs.Counted.{ticked};
ghost use Rattle.mvt_sweep.specs.Calls.Chain.{EachOne};
ghost use Rattle.mvt_sweep.specs.Calls.Chains.{AreChains, edge_of, edges_of, outside_of};
ghost use Rattle.mvt_sweep.specs.Work.{AddsWork};
ghost use Rattle.mvt_sweep.specs.Calls.SweepVertices.{sweep_count, plan_of, position_at};
ghost use Rattle.mvt_sweep.specs.Calls.Sweep.{IsCut, IsUnder};
ghost use Rattle.mvt_status.specs.Counts.{bits};
ghost use Rattle.mvt_status.specs.Split.{AreBeside};

use crate::sweep::chains::Chains;
use crate::sweep::vertices::SweepVertices;
use mvt_plane::{Count, Point, passes_below};
use mvt_status::{Split, Status};

/// Fewer chains are searched at once.
const FEW_CHAINS: usize = 32;

/// How many chains of the status have edges below a vertex (they come before the others), and the
/// chains directly below and above it.
pub(crate) fn place_of<S: Status>(
    vertices: &SweepVertices,
    number: usize,
    chains: &Chains,
    status: &S,
    count: &mut Count,
) -> Split
    requires number { number < sweep_count vertices.now }
    requires known { EachOne (λ chain. (chain < outside_of chains.now)
        × (edge_of chains.now chain < sweep_count vertices.now)) (S.edges status.now) }
    requires few { length (S.edges status.now) ≤ sweep_count vertices.now }
    requires cut { (front : List ℕ) × (rest : List ℕ)
        × IsCut (plan_of vertices.now) (position_at vertices.now number)
        (edges_of chains.now (S.edges status.now)) front rest }
    ensures within { result.point ≤ length (S.edges status.now) }
    ensures cut { IsCut (plan_of vertices.now) (position_at vertices.now number)
        (edges_of chains.now (S.edges status.now))
        (take result.point (edges_of chains.now (S.edges status.now)))
        (drop result.point (edges_of chains.now (S.edges status.now))) }
    ensures beside { AreBeside (S.edges status.now) result }
    ensures counted { AddsWork 0 (2 * bits (sweep_count vertices.now))
        (6 * bits (sweep_count vertices.now)) count.old count.new }
    ensures fewer { AddsWork 0 (2 * bits (length (S.edges status.now)))
        (6 * bits (length (S.edges status.now))) count.old count.new }
    ensures probed { 0 < length (S.edges status.now) → ticked count.old.probes ≤ count.new.probes }
{
    let position = *vertices.position(number);
    let below = |chain: usize| -> bool
        requires chain { (chain < outside_of chains.now)
            × (edge_of chains.now chain < sweep_count vertices.now) }
        ensures { IsTrue result ↔ IsUnder (plan_of vertices.entry.now) position
            (edge_of chains.entry.now chain) }
    { is_below(vertices, chains.twin(chain), position) };
    status.split_around(&below, count)
}

/// The same, where the vertex may well be above all chains or below all: it is compared with the
/// highest and the lowest one first. Of few chains, and of more than half as many as there are
/// vertices, the probes would not pay, or be more than are promised.
pub(crate) fn place_from_outside<S: Status>(
    vertices: &SweepVertices,
    number: usize,
    chains: &Chains,
    status: &S,
    count: &mut Count,
) -> Split
    requires number { number < sweep_count vertices.now }
    requires chains { AreChains vertices.now chains.now (S.edges status.now) }
    requires known { EachOne (λ chain. (chain < outside_of chains.now)
        × (edge_of chains.now chain < sweep_count vertices.now)) (S.edges status.now) }
    requires few { length (S.edges status.now) ≤ sweep_count vertices.now }
    requires cut { (front : List ℕ) × (rest : List ℕ)
        × IsCut (plan_of vertices.now) (position_at vertices.now number)
        (edges_of chains.now (S.edges status.now)) front rest }
    ensures within { result.point ≤ length (S.edges status.now) }
    ensures cut { IsCut (plan_of vertices.now) (position_at vertices.now number)
        (edges_of chains.now (S.edges status.now))
        (take result.point (edges_of chains.now (S.edges status.now)))
        (drop result.point (edges_of chains.now (S.edges status.now))) }
    ensures beside { AreBeside (S.edges status.now) result }
    ensures counted { AddsWork 0 (2 * bits (sweep_count vertices.now))
        (6 * bits (sweep_count vertices.now)) count.old count.new }
    ensures probed { 0 < length (S.edges status.now) → ticked count.old.probes ≤ count.new.probes }
{
    let len = status.len();
    if FEW_CHAINS < len && len <= vertices.len() / 2 {
        if let Some(place) = place_outside(vertices, number, chains, status, count) {
            return place;
        }
    }
    place_of(vertices, number, chains, status, count)
}

/// Where the vertex is among chains, if it is above all or below all. At most two probes.
fn place_outside<S: Status>(
    vertices: &SweepVertices,
    number: usize,
    chains: &Chains,
    status: &S,
    count: &mut Count,
) -> Option<Split>
    requires number { number < sweep_count vertices.now }
    requires chains { AreChains vertices.now chains.now (S.edges status.now) }
    requires known { EachOne (λ chain. (chain < outside_of chains.now)
        × (edge_of chains.now chain < sweep_count vertices.now)) (S.edges status.now) }
    requires some { 0 < length (S.edges status.now) }
    requires cut { (front : List ℕ) × (rest : List ℕ)
        × IsCut (plan_of vertices.now) (position_at vertices.now number)
        (edges_of chains.now (S.edges status.now)) front rest }
    ensures within { IfSome result (λ place. place.point ≤ length (S.edges status.now)) }
    ensures cut { IfSome result (λ place. IsCut (plan_of vertices.now)
        (position_at vertices.now number) (edges_of chains.now (S.edges status.now))
        (take place.point (edges_of chains.now (S.edges status.now)))
        (drop place.point (edges_of chains.now (S.edges status.now)))) }
    ensures beside { IfSome result (AreBeside (S.edges status.now)) }
    ensures counted { AddsWork 0 2 0 count.old count.new }
    ensures probed { ticked count.old.probes ≤ count.new.probes }
{
    let position = *vertices.position(number);
    let highest = chains.highest();
    count.tick_probe();
    if is_below(vertices, chains.twin(highest), position) {
        return Some(Split {
            point: status.len(),
            front: Some(highest),
            following: None,
        });
    }
    let lowest = chains.lowest();
    count.tick_probe();
    if !is_below(vertices, chains.twin(lowest), position) {
        return Some(Split {
            point: 0,
            front: None,
            following: Some(lowest),
        });
    }
    None
}

/// Whether an edge is below a position.
#[inline]
fn is_below(vertices: &SweepVertices, edge: usize, position: Point) -> bool
    requires edge { edge < sweep_count vertices.now }
    ensures { IsTrue result ↔ IsUnder (plan_of vertices.now) position edge }
{
    let from = *vertices.position(edge);
    let to = *vertices.position(vertices.next(edge));
    passes_below(from, to, position)
}
