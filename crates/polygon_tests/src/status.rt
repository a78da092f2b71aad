//! Edges in a status, and what is counted.

ghost use Rattle.std.specs.Prelude.{◌≡◌, ℕ, ◌*◌, ◌<◌, ◌≤◌, IfOk, nat_lt, not, ◌==◌, [], ◌∷◌, length, slice_index};
ghost use Rattle.mvt_status.specs.Counts.{AddsAtMost, bits};

mod tree;
mod vector;

use mvt_plane::Count;
use mvt_status::Status;
use std::alloc::{AllocError, Global};
use std::process::Abort;

/// The edges of a status, in order.
pub(crate) fn list<S: Status>(
    alloc: Global,
    status: &S,
    count: &mut Count,
) -> Result<Vec<usize>, AllocError> {
    let mut edges = Vec::new(alloc);
    for at in 0..status.len() {
        edges.push(status.get(at, count))?;
    }
    Ok(edges)
}

/// Puts edges 7, 4 and 9 into a status, in the order 4, 9, 7. Answers how many are in front of the
/// 7, and the edge at 1, which it takes out.
fn three_edges<S: Status>(status: &mut S, count: &mut Count) -> Result<(usize, usize), AllocError>
    requires { S.edges status.old ≡ [] }
    ensures list { IfOk result (λ _. S.edges status.new ≡ 4 ∷ 7 ∷ []) }
{
    status.insert(0, 7, count)?;
    status.insert(0, 4, count)?;
    status.insert(1, 9, count)?;
    let is_other = |edge: usize| -> bool
        ensures { result ≡ not (edge == 7) }
    { edge != 7 };
    let split = status.split_point(&is_other, count);
    Ok((split, status.remove(1, count)))
}

/// Edges come and go in a status that is empty at first, and each is found where it should be.
/// Answers what was counted.
pub(crate) fn edges_come_and_go<S: Status>(
    rt: &impl Abort,
    alloc: Global,
    status: &mut S,
) -> Result<Count, AllocError>
    requires { S.edges status.old ≡ [] }
{
    let mut count = Count::new();
    let three = three_edges(status, &mut count)?;
    let edges = list(alloc, status, &mut count)?;
    assert_eq!(rt; three, (2, 9));
    assert_eq!(rt; edges.as_slice(), [4, 7].as_slice());
    status.replace(1, 8, &mut count)?;
    status.insert_two(1, 5, 6, &mut count)?;
    let edges = list(alloc, status, &mut count)?;
    assert_eq!(rt; edges.as_slice(), [4, 5, 6, 8].as_slice());
    let two = status.remove_two(1, &mut count);
    let edges = list(alloc, status, &mut count)?;
    assert_eq!(rt; two, (5, 6));
    assert_eq!(rt; edges.as_slice(), [4, 8].as_slice());
    Ok(count)
}

/// Puts the numbers below `many` into a status, each at the end. Answers the most visits that one
/// took.
fn count_up<S: Status>(status: &mut S, many: usize, count: &mut Count) -> Result<u64, AllocError>
    requires { S.edges status.old ≡ [] }
    ensures many { IfOk result (λ _. length (S.edges status.new) ≡ many) }
    ensures numbered { IfOk result (λ _. (at : ℕ) → at < many
        → slice_index (S.edges status.new) at ≡ at) }
{
    let mut most = 0;
    for edge in 0..many {
        let before = count.visits();
        status.insert(edge, edge, count)?;
        most = most.max(count.visits() - before);
    }
    Ok(most)
}

/// How many numbers of a status that counts up are below a limit.
fn split_below<S: Status>(status: &S, limit: usize, count: &mut Count) -> usize
    requires within { limit ≤ length (S.edges status.now) }
    requires numbered { (at : ℕ) → at < length (S.edges status.now)
        → slice_index (S.edges status.now) at ≡ at }
    ensures counted { AddsAtMost (2 * bits (length (S.edges status.now)))
        (2 * bits (length (S.edges status.now))) count.old count.new }
{
    let below = |edge: usize| -> bool
        ensures { result ≡ nat_lt edge limit }
    { edge < limit };
    status.split_point(&below, count)
}

/// The split of a status that counts up to 1,000, and the work that it takes.
#[derive(Drop)]
pub(crate) struct SplitOfMany {
    pub(crate) split: usize,
    pub(crate) probes: u64,
    pub(crate) visits: u64,
    /// The most visits of an edge that was put in.
    pub(crate) visits_to_insert: u64,
}

/// Splits a status that counts up to 1,000, and is empty at first.
pub(crate) fn split_of_many<S: Status>(
    status: &mut S,
    limit: usize,
) -> Result<SplitOfMany, AllocError>
    requires empty { S.edges status.old ≡ [] }
    requires within { limit ≤ 1000 }
{
    let mut count = Count::new();
    let visits_to_insert = count_up(status, 1000, &mut count)?;
    let before = count;
    let split = split_below(status, limit, &mut count);
    Ok(SplitOfMany {
        split,
        probes: count.probes() - before.probes(),
        visits: count.visits() - before.visits(),
        visits_to_insert,
    })
}

/// The visits to get the edge at a place.
fn visits_to_get<S: Status>(status: &S, at: usize) -> u64
    requires { at < length (S.edges status.now) }
{
    let mut count = Count::new();
    status.get(at, &mut count);
    count.visits()
}

/// The visits to put two edges in at a place.
fn visits_to_insert_two<S: Status>(status: &mut S, at: usize) -> Result<u64, AllocError>
    requires { at ≤ length (S.edges status.old) }
{
    let mut count = Count::new();
    status.insert_two(at, 0, 1, &mut count)?;
    Ok(count.visits())
}

/// The visits at both ends of a status that counts up, and is empty at first: to get its first edge
/// and its last one, and to put two edges in front of all and after them.
pub(crate) fn visits_at_ends<S: Status>(status: &mut S, many: usize) -> Result<[u64; 4], AllocError>
    requires empty { S.edges status.old ≡ [] }
    requires some { 0 < many }
{
    count_up(status, many, &mut Count::new())?;
    let to_first = visits_to_get(status, 0);
    let to_last = visits_to_get(status, many - 1);
    let in_front = visits_to_insert_two(status, 0)?;
    let end = status.len();
    let following = visits_to_insert_two(status, end)?;
    Ok([to_first, to_last, in_front, following])
}

/// Counts up in a status that is empty at first, and takes two edges out at each place that is a
/// multiple of a step, the greatest first. Answers whether they were the ones there.
pub(crate) fn are_right_pairs<S: Status>(
    status: &mut S,
    many: usize,
    step: usize,
) -> Result<bool, AllocError>
    requires empty { S.edges status.old ≡ [] }
    requires some { 1 < step }
{
    let mut count = Count::new();
    count_up(status, many, &mut count)?;
    for pair in (0..many / step).rev() {
        let at = pair * step;
        if at + 1 < status.len() && status.remove_two(at, &mut count) != (at, at + 1) {
            return Ok(false);
        }
    }
    Ok(true)
}
