//! Edges that are taken out of a tree, or put in the place of others.
ghost use Rattle.std.specs.Prelude.{◌≡◌, ◌+◌, ◌<◌, ◌≤◌, suc, ◌++◌, IfSome, IsFalse, IsTrue, drop, insert, length, remove, slice_index, take};
ghost use Rattle.mvt_plane.specs.Counted.{ticked};
ghost use Rattle.mvt_status.specs.Counts.{AddsAtMost};
ghost use Rattle.mvt_status.specs.Calls.Tree.{edges_of, fewest, height_of};

use super::{Node, Own, Side, height, is_filled, join_over, lift, settle, size, visit};
use mvt_plane::Count;
use std::mem::swap;

/// Takes the edge at a place out. A node that has no more edges takes those of the first node on
/// its right, and that node is the spare one then; with nothing on its right it is the spare one
/// itself. Ticks a visit for each node on the way to the place and to the node whose edges are
/// taken.
pub(crate) fn remove_from(side: &mut Side, at: usize, spare: &mut Side, count: &mut Count) -> usize
    requires within { at < length (edges_of side.old) }
    requires spare { height_of spare.old ≤ 1 }
    ensures edges { edges_of side.new ≡ remove (edges_of side.old) at }
    ensures out { result ≡ slice_index (edges_of side.old) at }
    ensures not_higher { height_of side.new ≤ height_of side.old }
    ensures at_most_one_lower { height_of side.old ≤ height_of side.new + 1 }
    ensures spare { height_of spare.new ≤ 1 }
    ensures counted { AddsAtMost 0 (height_of side.old) count.old count.new }
    ensures visited { ticked count.old.visits ≤ count.new.visits }
    ensures filled { fewest (height_of side.old) ≤ suc (length (edges_of side.old)) }
{
    let Some(node) = side else { unreachable!() };
    visit(count);
    let top: &mut Node = node;
    is_filled(&top.left);
    is_filled(&top.right);
    let before = size(&top.left);
    let following = before + top.own.len();
    let out;
    top.size -= 1;
    if at < before {
        let level = height(&top.left);
        out = remove_from(&mut top.left, at, spare, count);
        if height(&top.left) == level {
            return out;
        }
    } else if at < following && 1 < top.own.len() {
        return take_out(&mut top.own, at - before);
    } else if top.size == before {
        let left = top.left.take();
        top.size = 1;
        top.height = 1;
        return lift_edge(side, left, spare);
    } else {
        let level = height(&top.right);
        out = if at < following {
            own_from(&mut top.right, &mut top.own, spare, count)
        } else {
            remove_from(&mut top.right, at - following, spare, count)
        };
        if height(&top.right) == level {
            return out;
        }
    }
    if let Some((left, right)) = settle(&mut top.left, &mut top.right, &mut top.height) {
        top.size = top.own.len();
        join_over(left, side, right);
    }
    out
}

/// Takes one of the edges of a node out.
#[inline(never)]
fn take_out(own: &mut Own, at: usize) -> usize
    requires { at < length own.old.items }
    ensures items { own.new.items ≡ remove own.old.items at }
    ensures out { result ≡ slice_index own.old.items at }
{
    let out = own[at];
    leave_out(own, at, 1);
    out
}

/// Takes so many of the edges of a node out, from a place on.
#[inline(always)]
fn leave_out(own: &mut Own, at: usize, many: usize)
    requires { at + many ≤ length own.old.items }
    ensures { own.new.items ≡ take at own.old.items ++ drop (at + many) own.old.items }
{
    let left = own.len() - many;
    own.as_mut_slice().copy_within(at + many.., at);
    own.truncate(left);
}

/// Takes the edge at a place and the one after it out and writes them to `out`, if both are in one
/// node that has others, so that no node changes its height. Else it answers false, and nothing is
/// changed. Answers also how many nodes were visited.
pub(crate) fn take_two(side: &mut Side, at: usize, out: &mut (usize, usize)) -> (bool, u64)
    ensures unchanged { IsFalse result.0 → edges_of side.new ≡ edges_of side.old }
    ensures edges { IsTrue result.0 → edges_of side.new
        ≡ remove (remove (edges_of side.old) at) at }
    ensures lower { IsTrue result.0 → out.new.0 ≡ slice_index (edges_of side.old) at }
    ensures upper { IsTrue result.0 → out.new.1 ≡ slice_index (edges_of side.old) (at + 1) }
    ensures within { IsTrue result.0 → at + 1 < length (edges_of side.old) }
    ensures height { height_of side.new ≡ height_of side.old }
    ensures counted { result.1 ≤ height_of side.old }
    ensures visited { IfSome side.old (λ _. 0 < result.1) }
    ensures filled { fewest (height_of side.old) ≤ suc (length (edges_of side.old)) }
{
    is_filled(side);
    let Some(node) = side else {
        return (false, 0);
    };
    let top: &mut Node = node;
    let before = size(&top.left);
    let following = before + top.own.len();
    let (is_out, below) = if at < before {
        take_two(&mut top.left, at, out)
    } else if at < following {
        (take_two_own(&mut top.own, at - before, out), 0)
    } else {
        take_two(&mut top.right, at - following, out)
    };
    let visits = below + 1;
    is_filled(&top.left);
    is_filled(&top.right);
    if is_out {
        top.size -= 2;
    }
    (is_out, visits)
}

/// The same among the edges of one node.
#[inline(never)]
fn take_two_own(own: &mut Own, at: usize, out: &mut (usize, usize)) -> bool
    ensures unchanged { IsFalse result → own.new ≡ own.old }
    ensures edges { IsTrue result → own.new.items ≡ remove (remove own.old.items at) at }
    ensures lower { IsTrue result → out.new.0 ≡ slice_index own.old.items at }
    ensures upper { IsTrue result → out.new.1 ≡ slice_index own.old.items (at + 1) }
    ensures within { IsTrue result → at + 1 < length own.old.items }
    ensures others { IsTrue result → 2 < length own.old.items }
{
    if own.len() < 3 || at >= own.len() - 1 {
        return false;
    }
    *out = (own[at], own[at + 1]);
    leave_out(own, at, 2);
    true
}

/// Puts a side in the place of a node that has one edge and nothing on either side. The node is the
/// spare one then, and the edge is the answer.
#[inline(never)]
fn lift_edge(side: &mut Side, left: Side, spare: &mut Side) -> usize
    requires low { height_of side.old ≡ 1 }
    requires some { 0 < length (edges_of side.old) }
    ensures rest { side.new ≡ left }
    ensures out { result ≡ slice_index (edges_of side.old) 0 }
    ensures spare { height_of spare.new ≤ 1 }
{
    let node = lift(side, left);
    let top: &Node = &node;
    is_filled(&top.left);
    is_filled(&top.right);
    let out = top.own[0];
    *spare = Some(node);
    out
}

/// Takes the first node of a side out, and its edges in the place of others. The node is the spare
/// one then, and the first of the others is the answer.
#[inline(never)]
fn own_from(side: &mut Side, own: &mut Own, spare: &mut Side, count: &mut Count) -> usize
    requires within { 0 < length (edges_of side.old) }
    requires some { 0 < length own.old.items }
    ensures edges { edges_of side.old ≡ own.new.items ++ edges_of side.new }
    ensures some { 0 < length own.new.items }
    ensures out { result ≡ slice_index own.old.items 0 }
    ensures not_higher { height_of side.new ≤ height_of side.old }
    ensures at_most_one_lower { height_of side.old ≤ height_of side.new + 1 }
    ensures spare { height_of spare.new ≤ 1 }
    ensures counted { AddsAtMost 0 (height_of side.old) count.old count.new }
{
    let out = own[0];
    let first = take_first(side, count);
    *spare = Some(exchanged(first, own));
    out
}

/// Takes the first node out. Ticks a visit for each node on the way there.
fn take_first(side: &mut Side, count: &mut Count) -> Box<Node>
    requires { 0 < length (edges_of side.old) }
    ensures edges { edges_of side.old ≡ result.value.0 ++ edges_of side.new }
    ensures low { result.value.1 ≡ 1 }
    ensures not_higher { height_of side.new ≤ height_of side.old }
    ensures at_most_one_lower { height_of side.old ≤ height_of side.new + 1 }
    ensures counted { AddsAtMost 0 (height_of side.old) count.old count.new }
{
    let Some(node) = side else { unreachable!() };
    visit(count);
    let top: &mut Node = node;
    is_filled(&top.right);
    let level = height(&top.left);
    if level == 0 {
        let right = top.right.take();
        top.size = top.own.len();
        top.height = 1;
        return lift(side, right);
    }
    let first = take_first(&mut top.left, count);
    top.size -= size_of(&first);
    if height(&top.left) == level {
        return first;
    }
    if let Some((left, right)) = settle(&mut top.left, &mut top.right, &mut top.height) {
        top.size = top.own.len();
        join_over(left, side, right);
    }
    first
}

/// How many edges there are in a node and on both sides.
#[inline(always)]
fn size_of(node: &Node) -> usize
    ensures { result ≡ length node.now.0 }
{
    node.size
}

/// Exchanges the edges of a node with nothing on either side for others.
fn exchanged(mut node: Box<Node>, own: &mut Own) -> Box<Node>
    requires low { node.value.1 ≡ 1 }
    requires some { 0 < length own.old.items }
    ensures taken { own.new.items ≡ node.value.0 }
    ensures some { 0 < length own.new.items }
    ensures low { result.value.1 ≡ 1 }
{
    let top: &mut Node = &mut node;
    is_filled(&top.left);
    is_filled(&top.right);
    swap(&mut top.own, own);
    top.size = top.own.len();
    node
}

/// Puts an edge in the place of the one that is there. Ticks a visit for each node on the way
/// there.
pub(crate) fn replace_in(side: &mut Side, at: usize, edge: usize, count: &mut Count)
    requires { at < length (edges_of side.old) }
    ensures edges { edges_of side.new ≡ insert (remove (edges_of side.old) at) at edge }
    ensures height { height_of side.new ≡ height_of side.old }
    ensures counted { AddsAtMost 0 (height_of side.old) count.old count.new }
    ensures visited { ticked count.old.visits ≤ count.new.visits }
    ensures filled { fewest (height_of side.old) ≤ suc (length (edges_of side.old)) }
{
    let Some(node) = side else { unreachable!() };
    visit(count);
    let top: &mut Node = node;
    let before = size(&top.left);
    let following = before + top.own.len();
    if at < before {
        replace_in(&mut top.left, at, edge, count);
    } else if at < following {
        top.own[at - before] = edge;
    } else {
        replace_in(&mut top.right, at - following, edge, count);
    }
}
