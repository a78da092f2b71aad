//! What a tree answers without a change: the edge at a place, and where its edges split.
ghost use Rattle.std.specs.Prelude.{◌≡◌, ℕ, ◌+◌, ◌-◌, ◌*◌, ◌/◌, ◌<◌, ◌≤◌, suc, All, if◌then◌else◌, IfSome, Some, length, slice_index};
ghost use Rattle.mvt_plane.specs.Counted.{ticked};
ghost use Rattle.mvt_status.specs.Counts.{AddsAtMost, bits, raised};
ghost use Rattle.mvt_status.specs.Split.{AreBeside, IsSplit};
ghost use Rattle.mvt_status.specs.Calls.Tree.{edges_of, fewest, height_of};

use super::{Node, Side, is_filled, size, visit};
use crate::Split;
use crate::search::split_in;
use mvt_plane::Count;

/// The edge at a place. Ticks a visit for each node on the way there.
pub(crate) fn edge_at(side: &Side, at: usize, count: &mut Count) -> usize
    requires { at < length (edges_of side.now) }
    ensures value { result ≡ slice_index (edges_of side.now) at }
    ensures counted { AddsAtMost 0 (height_of side.now) count.old count.new }
    ensures visited { ticked count.old.visits ≤ count.new.visits }
    ensures filled { fewest (height_of side.now) ≤ suc (length (edges_of side.now)) }
{
    let Some(node) = side else { unreachable!() };
    let node: &Node = node;
    visit(count);
    let before = size(&node.left);
    if at < before {
        return edge_at(&node.left, at, count);
    }
    let further = at - before;
    if further < node.own.len() {
        node.own[further]
    } else {
        edge_at(&node.right, further - node.own.len(), count)
    }
}

/// How many edges of which `below` is true are at the front, with the edges in front of the split
/// and after it. It goes down by the first edge of each node, and then searches the last node whose
/// first edge is below. Ticks a visit and a probe for each node on the way down, which are half as
/// many at least as there are levels, and a probe for each edge that it checks there.
#[inline]
pub(crate) fn split_of<F: Fn(usize) -> bool>(side: &Side, below: &F, count: &mut Count) -> Split
    requires callable { All (F.pre below.now) (edges_of side.now) }
    requires splits { (point : ℕ) × IsSplit (F.post below.now) (edges_of side.now) point }
    ensures split { IsSplit (F.post below.now) (edges_of side.now) result.point }
    ensures beside { AreBeside (edges_of side.now) result }
    ensures counted { AddsAtMost (2 * bits (length (edges_of side.now))) (height_of side.now)
        count.old count.new }
    ensures visited { IfSome side.now (λ _. ticked count.old.visits ≤ count.new.visits) }
    ensures probed { IfSome side.now (λ _. ticked count.old.probes ≤ count.new.probes) }
    ensures visited_down { raised (suc (height_of side.now) / 2) count.old.visits
        ≤ count.new.visits }
    ensures probed_down { raised (suc (height_of side.now) / 2) count.old.probes
        ≤ count.new.probes }
    ensures filled { fewest (height_of side.now) ≤ suc (length (edges_of side.now)) }
{
    is_filled(side);
    // (they are no more than a word can count)
    size(side);
    let mut part: &Side = side;
    let mut passed: usize = 0;
    let mut last: &[usize] = &[];
    let mut following = None;
    let mut depth: u64 = 0;
    'levels: while let Some(node) = part {
        let node: &Node = node;
        is_filled(&node.left);
        is_filled(&node.right);
        depth += 1;
        let first = node.own[0];
        if below(first) {
            passed += node.size - size(&node.right);
            last = node.own.as_slice();
            part = &node.right;
        } else {
            following = Some(first);
            part = &node.left;
        }
    }
    pass(count, depth);
    if last.is_empty() {
        return Split {
            point: 0,
            front: None,
            following,
        };
    }
    let point = split_after_first(last, below, count);
    Split {
        point: passed - (last.len() - point),
        front: Some(last[point - 1]),
        following: edge_or(last, point, following),
    }
}

/// Counts a visit and a probe for each level that a search went down.
#[inline(always)]
fn pass(count: &mut Count, levels: u64)
    ensures counted { AddsAtMost levels levels count.old count.new }
    ensures visited { count.new.visits ≡ raised levels count.old.visits }
    ensures probed { count.new.probes ≡ raised levels count.old.probes }
{
    count.tick_visits(levels);
    count.tick_probes(levels);
}

/// The edge at a place in a node, or another one after them all.
#[inline(always)]
fn edge_or(own: &[usize], at: usize, following: Option<usize>) -> Option<usize>
    ensures there { at < length own.now → result ≡ Some (slice_index own.now at) }
    ensures further { length own.now ≤ at → result ≡ following }
{
    if at < own.len() {
        Some(own[at])
    } else {
        following
    }
}

/// How many edges are at the front of a list of which `below` is true, where it is true of the
/// first and false of all others. Ticks a probe for each edge that it checks.
#[inline]
fn split_after_first<F: Fn(usize) -> bool>(edges: &[usize], below: &F, count: &mut Count) -> usize
    requires callable { All (F.pre below.now) edges.now }
    requires splits { (point : ℕ) × (0 < point) × IsSplit (F.post below.now) edges.now point }
    ensures split { IsSplit (F.post below.now) edges.now result }
    ensures some { 0 < result }
    ensures counted { AddsAtMost (bits (length edges.now - 1)) 0 count.old count.new }
    ensures probed { raised (bits (length edges.now) - 1) count.old.probes ≤ count.new.probes }
{
    1 + split_in(&edges[1..], below, count)
}
